// Bond kinds and counts, and what the counts of atoms and bonds have to agree in.
#![tactic(auto)]

ghost use Rattle.std.specs.Prelude.{◌≡◌, ltb, ◌-◌};
ghost use Rattle.answer.specs.Lowest.{lowest};
ghost use Rattle.bonds.specs.Kinds.{bonds_at, above_at, kind_of, hydrogen_unbalanced};

use elements::{Atoms, Element, each, first_above};

// Bond counts, indexed by kind less one.
#[repr(C)]
#[derive(Clone, Copy, Debug, PartialEq, Eq)]
pub struct Bonds {
    pub count: [u64; 22],
}

// The bonds of hydrogen, by their kinds.
#[derive(Clone, Copy)]
enum HydrogenBond {
    CH = 4,
    SiH = 15,
    NH = 17,
    OH = 18,
    SH = 19,
}

impl Bonds {
    // The bonds of a kind. (Wide, as the sum of the hydrogen's may not fit into 64 bits.)
    fn of(self, bond: HydrogenBond) -> u128
        ensures { result ≡ bonds_at self (kind_of bond) }
    {
        u128::from(self.count[bond as usize - 1])
    }

    // The lowest kind with more bonds than a bound, as 10 + its number.
    fn first_above(self, bound: u64) -> Option<u64>
        ensures { result ≡ lowest (λ p. ltb bound (bonds_at self (p - 10))) 11 22 }
    {
        self.count
            .iter()
            .position(|n| bound < *n)
            .map(|i| i as u64 + 11)
    }
}

// The lowest place with a count above 200: elements 1 to 10, then bond kinds as 11 to 32. (A number, as the definition has it: it is the place of a refusal.)
// Atoms and bonds come apart here and below, as C hands them in.
#[tactic(auto, unfolding(crate::specs::Kinds::above_at))]
pub fn first_above_200(atoms: Atoms, bonds: Bonds) -> Option<u64>
    ensures { result ≡ above_at atoms bonds }
{
    first_above(each(200), atoms).or_else(|| bonds.first_above(200))
}

// Whether the H atoms differ from the H bonds.
#[tactic(auto, unfolding(crate::specs::Kinds::hydrogen_unbalanced))]
pub fn hydrogen_is_unbalanced(atoms: Atoms, bonds: Bonds) -> bool
    ensures { result ≡ hydrogen_unbalanced atoms bonds }
{
    u128::from(atoms.of(Element::Hydrogen))
        != bonds.of(HydrogenBond::CH)
            + bonds.of(HydrogenBond::SiH)
            + bonds.of(HydrogenBond::NH)
            + bonds.of(HydrogenBond::OH)
            + bonds.of(HydrogenBond::SH)
}
