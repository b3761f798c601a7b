// The oxygen coefficient of a fuel, which fuels are admitted to what, and the stoichiometric fraction.
#![tactic(auto)]

ghost use Rattle.std.specs.Prelude.{◌≡◌, ◌≤◌, IfOk};
ghost use Rattle.answer.specs.Outcome.{told};
ghost use Rattle.oxygen.specs.Admission.{most, admission, oxygen_coefficient};
ghost use Rattle.oxygen.specs.Stoichiometric.{stoichiometric_fraction};

use answer::{Reason, Refused, Rounded};
use elements::{Atoms, Element, each, first_above, number_of, weighted_sum};
use rounding::round_div;

// What adds to β and what takes from it, in quarters: C H O N S P F Cl Br Si.
const ADDED: [u8; 10] = [4, 1, 0, 0, 4, 10, 0, 0, 0, 0];

const TAKEN: [u8; 10] = [0, 0, 2, 0, 0, 0, 1, 1, 1, 0];

// What a fuel is admitted to.
#[derive(Clone, Copy, Debug, PartialEq, Eq)]
pub enum Purpose {
    OxygenCoefficient,
    GasLimits,
    FirePoint,
}

impl Purpose {
    // The most atoms of each element that are admitted.
    fn most_atoms(self) -> Atoms
        ensures { result ≡ most self }
    {
        match self {
            Purpose::OxygenCoefficient => Atoms {
                count: [200, 200, 200, 200, 200, 200, 200, 200, 200, 0],
            },
            Purpose::GasLimits => Atoms {
                count: [200, 200, 200, 200, 0, 0, 0, 1, 0, 0],
            },
            Purpose::FirePoint => Atoms {
                count: [200, 200, 200, 200, 0, 0, 0, 0, 0, 0],
            },
        }
    }
}

// β in quarters of a fuel that is admitted; refusals 2, 3 and 4. (Its bound is promised of the number, and no type holds it, since C is answered a number.)
#[tactic(auto, unfolding(crate::specs::Admission::admission, crate::specs::Admission::not_admitted))]
pub fn admit(purpose: Purpose, atoms: Atoms) -> Result<u64, Refused>
    ensures value { told result ≡ admission purpose atoms }
    ensures bounded { IfOk result (λ q. q ≤ 3800) }
{
    if let Some(over) = first_above(each(200), atoms) {
        return Err(Reason::CountTooLarge.at(over));
    }
    if atoms.of(Element::Carbon) == 0 {
        return Err(Reason::ElementNotAdmitted.at(number_of(Element::Carbon)));
    }
    if let Some(fault) = first_above(purpose.most_atoms(), atoms) {
        return Err(Reason::ElementNotAdmitted.at(fault));
    }
    let added = weighted_sum(ADDED, atoms);
    let taken = weighted_sum(TAKEN, atoms);
    if added < taken + 2 {
        return Err(Reason::OxygenTooLow.at(0));
    }
    Ok(added - taken)
}

// β in quarters.
pub fn oxygen_coefficient(atoms: Atoms) -> Result<u64, Refused>
    ensures value { told result ≡ oxygen_coefficient atoms }
    ensures bounded { IfOk result (λ q. q ≤ 3800) }
{
    admit(Purpose::OxygenCoefficient, atoms)
}

// The stoichiometric fraction in hundredths of a percent.
#[tactic(auto, unfolding(crate::specs::Stoichiometric::stoichiometric_fraction), using(crate::proofs::Stoichiometry::percent_rounded))]
pub fn stoichiometric_fraction(atoms: Atoms) -> Result<Rounded<u64>, Refused>
    ensures { told result ≡ stoichiometric_fraction atoms }
{
    let beta = oxygen_coefficient(atoms)?;
    Ok(round_div(1000000, 121 * beta + 100))
}
