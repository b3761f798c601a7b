// Blends of fuels (document 01: pools): what Le Chatelier's rule needs of all that one took in.
#![tactic(auto)]

ghost use Rattle.std.specs.Prelude.{◌≡◌, true, false, List, ◌≤◌, ◌<◌, IfOk, MatchResult, Some, None};
ghost use Rattle.answer.specs.Outcome.{refused, refusal, refused_at, told};
ghost use Rattle.elements.specs.Elements.{each, first_above, weighted_sum};
ghost use Rattle.blend.specs.Limit.{lower, upper};
ghost use Rattle.blend.specs.Temperature.{OneAtFit};
ghost use Rattle.blend.specs.Fuel.{counts, text as fuel-text, admitting, molar_mass, masses, InHalves};
ghost use Rattle.blend.specs.Blend.{empty_blend, weight, within, together, taking, adding, joining, limits as asked-limits, rounded_blend_limits, AtMost100, asking_marked, asking, shown_blend, shown_limits, limits_told};
ghost use Rattle.blend.specs.Calls.{Call};
ghost use Rattle.blend.specs.Claims.{Claims};
ghost use Rattle.blend.specs.Marks.{MarksAlike};
ghost use Rattle.blend.specs.Internal.{Within};

use answer::{NOT_REFUSED, Reason, Refusal, Refused, Rounded, is_outside};
use elements::{Atoms, weighted_sum};
use formula::read_formula;
use oxygen::{Purpose, admit};
use rounding::{round_div, size};

// Total parts, and the sums of parts times aβ + b: lower in thousandths, upper in two-thousandths.
#[repr(C)]
#[derive(Clone, Copy, Debug, PartialEq, Eq)]
pub struct Blend {
    pub total: u64,
    pub lower: u64,
    pub upper: u64,
}

// A value for each of the two limits.
#[derive(Clone, Copy, Debug, PartialEq, Eq)]
pub struct LimitPair<A> {
    pub lower: A,
    pub upper: A,
}

// For C: the blend after an adding or a joining, or a refusal and the blend as given.
#[repr(C)]
#[derive(Clone, Copy, Debug, PartialEq, Eq)]
pub struct Blended {
    pub refusal: Refusal,
    pub blend: Blend,
}

impl Blended {
    pub fn of(given: Blend, answer: Result<Blend, Refused>) -> Blended
        ensures { result ≡ shown_blend given (told answer) }
    {
        match answer {
            Ok(blend) => Blended {
                refusal: NOT_REFUSED,
                blend,
            },
            Err(refused) => Blended {
                refusal: refused.into(),
                blend: given,
            },
        }
    }
}

// For C: both limits in hundredths of a volume percent with their marks, or a refusal and zeros.
#[repr(C)]
#[derive(Clone, Copy, Debug, PartialEq, Eq)]
pub struct Limits {
    pub refusal: Refusal,
    pub lower: u64,
    pub upper: u64,
    pub lower_mark: u64,
    pub upper_mark: u64,
}

impl From<Result<LimitPair<Rounded<u64>>, Refused>> for Limits {
    ghost from_gives = { λ answer l. l ≡ shown_limits (told answer) };

    fn from(answer: Result<LimitPair<Rounded<u64>>, Refused>) -> Limits {
        match answer {
            Ok(LimitPair { lower, upper }) => Limits::answered(
                lower.value,
                upper.value,
                lower.mark as u64,
                upper.mark as u64,
            ),
            Err(refused) => Refusal::from(refused).into(),
        }
    }
}

// A refusal of any number and place, the table's or not, with zeros beside it.
impl From<Refusal> for Limits {
    ghost from_gives = { λ declined l. l ≡ shown_limits (refused declined) };

    fn from(refusal: Refusal) -> Limits {
        Limits {
            refusal,
            lower: 0,
            upper: 0,
            lower_mark: 0,
            upper_mark: 0,
        }
    }
}

impl Limits {
    // An answer with any numbers as its marks.
    pub fn answered(low: u64, high: u64, low_mark: u64, high_mark: u64) -> Limits
        ensures { result ≡ record { refusal = refusal 0 0; lower = low; upper = high; lower_mark = low_mark; upper_mark = high_mark } }
    {
        Limits {
            refusal: NOT_REFUSED,
            lower: low,
            upper: high,
            lower_mark: low_mark,
            upper_mark: high_mark,
        }
    }
}

// 25 °C: the temperature at which the limits' formulas were fitted.
pub const FIT_TEMPERATURE: i64 = 2500;

// 20 °C: the temperature that is meant where none is named.
pub const USUAL_TEMPERATURE: i64 = 2000;

// The most parts of a blend.
const MOST_PARTS: u64 = 1000000;

// The molar masses of C H O N S P F Cl Br Si in halves of g/mol; an element without a mass here is not admitted.
const MASSES: [u8; 10] = [24, 2, 32, 28, 0, 0, 0, 71, 0, 0];

// The molar mass of a fuel in halves of g/mol. A count above 200 is taken as 200, and an element that is not admitted weighs nothing.
pub fn molar_mass(fuel: Atoms) -> u64
    ensures value { result ≡ weighted_sum masses fuel }
    ensures as_printed { first_above (each 200) fuel ≡ None → InHalves (molar_mass fuel) result }
{
    weighted_sum(MASSES, fuel)
}

// aβ + b, of β in quarters, for each limit by its own formula of the paper.
#[tactic(auto, unfolding(crate::specs::Blend::weight))]
fn weigh_lower(q: u64) -> u64
    requires { q ≤ 3800 }
    ensures { (result ≡ weight lower q) × (result ≤ 10000000) }
{
    2171 * q + 4679
}

#[tactic(auto, unfolding(crate::specs::Blend::weight))]
fn weigh_upper(q: u64) -> u64
    requires { q ≤ 3800 }
    ensures { (result ≡ weight upper q) × (result ≤ 10000000) }
{
    if q <= 30 {
        775 * q + 1120
    } else {
        384 * q + 13108
    }
}

// A blend that is not out of bounds.
#[derive(Clone, Copy)]
struct BoundedBlend {
    blend: Blend,
    ghost bounded: { Within blend },
}

impl BoundedBlend {
    // Refusal 28 with the given place, if the blend is out of bounds.
    #[tactic(auto, unfolding(crate::specs::Blend::within, crate::specs::Blend::sum_within))]
    fn of(blend: Blend, place: u64) -> Result<BoundedBlend, Refused>
        ensures { MatchResult result
            (λ b. (within blend ≡ true) × (b.blend ≡ blend))
            (λ e. (within blend ≡ false) × (e ≡ refused_at Reason.BlendOutOfBounds place)) }
    {
        let v = blend.total;
        if v <= MOST_PARTS
            && (9021 * v..=2175679 * v).contains(&blend.lower)
            && (2670 * v..=397108 * v).contains(&blend.upper)
        {
            return Ok(BoundedBlend { blend });
        }
        Err(Reason::BlendOutOfBounds.at(place))
    }

    // The blend with the sums of more.
    fn plus(self, more: Blend) -> Blend
        requires { (more.total ≤ 1000000) × (more.lower ≤ 10000000000000) × (more.upper ≤ 10000000000000) }
        ensures { result ≡ together self.blend more }
    {
        let b = self.blend;
        Blend {
            total: b.total + more.total,
            lower: b.lower + more.lower,
            upper: b.upper + more.upper,
        }
    }

    // The blend with parts of a fuel more. Refusals 2, 3, 4, 8. (Inlined, as are both addings: a result that goes through memory is written in parts, the byte
    // of a reason and what is beside it, and waits to be read whole.)
    #[inline(always)]
    #[tactic(auto, using(crate::proofs::Admitted::quarters_of), unfolding(crate::specs::Blend::taking, crate::specs::Fuel::admitting))]
    fn take(self, fuel: Atoms, parts: u64) -> Result<Blend, Refused>
        ensures { told result ≡ taking self.blend (admitting (counts fuel)) parts }
    {
        let beta = admit(Purpose::GasLimits, fuel)?;
        if MOST_PARTS - self.blend.total < parts {
            return Err(Reason::TotalTooLarge.at(0));
        }
        let more = Blend {
            total: parts,
            lower: parts * weigh_lower(beta),
            upper: parts * weigh_upper(beta),
        };
        Ok(self.plus(more))
    }

    // Both limits at an admitted temperature, of a blend that is not empty: each V / Σ (v / limit) times its correction as one quotient.
    #[tactic(auto, using(crate::proofs::Figures::figures))]
    fn limits(self, t: u64) -> LimitPair<Rounded<u64>>
        requires { (0 < self.blend.total) × (t ≤ 20000) }
        ensures value { result ≡ rounded_blend_limits self.blend t }
        ensures at_most { AtMost100 result }
    {
        let b = self.blend;
        LimitPair {
            lower: round_div(25000 * b.total * (127700 - t), 313 * b.lower),
            upper: round_div(50000 * b.total * (t + 78700), 203 * b.upper),
        }
    }
}

// An empty blend. Of blends that begin empty, and of every list of calls on them, the claims of specs/Claims.antt hold, and of their marks specs/Marks.antt.
pub fn empty_blend() -> Blend
    ensures value { result ≡ empty_blend }
    ensures every_list { (calls : List Call) → Claims calls }
    ensures marks { (calls : List Call) → MarksAlike calls }
{
    Blend {
        total: 0,
        lower: 0,
        upper: 0,
    }
}

// The blend with parts of a fuel more, given by its atom counts. Refusals 28, 2, 3, 4, 8.
#[inline(always)]
#[tactic(auto, unfolding(crate::specs::Blend::adding))]
pub fn add_fuel(b: Blend, fuel: Atoms, parts: u64) -> Result<Blend, Refused>
    ensures { told result ≡ adding b (counts fuel) parts }
{
    BoundedBlend::of(b, 0)?.take(fuel, parts)
}

// The same of a fuel given by its formula text. Refusals 28, then the reader's 1 and 2, then 3, 4, 8.
#[inline(always)]
#[tactic(auto, unfolding(crate::specs::Blend::adding, crate::specs::Blend::taking, crate::specs::Fuel::admitting))]
pub fn add_fuel_text(b: Blend, text: &[u8], parts: u64) -> Result<Blend, Refused>
    ensures { told result ≡ adding b (fuel-text text.now) parts }
{
    let bounded = BoundedBlend::of(b, 0)?;
    let fuel = read_formula(text)?;
    bounded.take(fuel, parts)
}

// The first blend with all of the second. Refusals 28 with place 0, or 1 if only the second is out of bounds; 8.
#[tactic(auto, unfolding(crate::specs::Blend::joining))]
pub fn join_blends(b: Blend, other: Blend) -> Result<Blend, Refused>
    ensures { told result ≡ joining b other }
{
    let first = BoundedBlend::of(b, 0)?;
    let second = BoundedBlend::of(other, 1)?;
    if MOST_PARTS - b.total < other.total {
        return Err(Reason::TotalTooLarge.at(0));
    }
    Ok(first.plus(second.blend))
}

// Both limits in hundredths of a volume percent at a temperature in hundredths of a degree, at most 100.00 %; at that of the fit no correction is applied.
// Refusals 28, 9, 10.
#[tactic(auto, using(crate::proofs::Figures::inside_small), unfolding(crate::specs::Blend::asking_marked, crate::specs::Blend::telling))]
pub fn blend_limits_at(b: Blend, temperature: i64) -> Result<LimitPair<Rounded<u64>>, Refused>
    ensures value { told result ≡ asking_marked b (asked-limits (Some temperature)) }
    ensures at_most { IfOk result AtMost100 }
    ensures at_fit { OneAtFit }
    ensures in_claim { limits_told (shown_limits (told result)) ≡ asking b (asked-limits (Some temperature)) }
{
    let bounded = BoundedBlend::of(b, 0)?;
    if b.total == 0 {
        return Err(Reason::BlendEmpty.at(0));
    }
    if is_outside(0, 20000, temperature) {
        return Err(Reason::GasTemperatureOutside.at(0));
    }
    Ok(bounded.limits(size(temperature)))
}

// The same with no temperature named, at most 100.00 %. Refusals 28, 9.
#[tactic(auto, unfolding(crate::specs::Blend::asking_marked, crate::specs::Blend::telling))]
pub fn blend_limits(b: Blend) -> Result<LimitPair<Rounded<u64>>, Refused>
    ensures value { told result ≡ asking_marked b (asked-limits None) }
    ensures at_most { IfOk result AtMost100 }
    ensures in_claim { limits_told (shown_limits (told result)) ≡ asking b (asked-limits None) }
{
    blend_limits_at(b, USUAL_TEMPERATURE)
}
