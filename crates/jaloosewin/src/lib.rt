// The C interface, include/jaloosewin.h: thin exported functions, each with the promise of the function that it calls. A blend and counts come in as
// numbers, one by one, since C hands them so.
#![tactic(auto)]

ghost use Rattle.std.specs.Prelude.{◌≡◌, List, [], ◌∷◌, ◌≤◌, Some, None};
ghost use Rattle.answer.specs.Outcome.{shown_figure, shown_rounded};
ghost use Rattle.formula.specs.Reading.{formula_read, ByGrammar, of_text};
ghost use Rattle.text.specs.Writing.{Longest};
ghost use Rattle.hill.specs.Hill.{BySymbol};
ghost use Rattle.hill.specs.Writing.{formula_written, room_after};
ghost use Rattle.hill.specs.RoundTrip.{RoundTrip};
ghost use Rattle.oxygen.specs.Admission.{oxygen_coefficient};
ghost use Rattle.oxygen.specs.Stoichiometric.{stoichiometric_fraction};
ghost use Rattle.blend.specs.Temperature.{OneAtFit};
ghost use Rattle.blend.specs.Fuel.{text as fuel-text};
ghost use Rattle.blend.specs.Blend.{blend as blend_of, empty_blend, adding, joining, limits as asked-limits, asking_marked, asking, shown_blend, shown_limits, limits_told};
ghost use Rattle.blend.specs.Calls.{Call};
ghost use Rattle.blend.specs.Claims.{Claims};
ghost use Rattle.blend.specs.Marks.{MarksAlike};
ghost use Rattle.limits.specs.FuelLimits.{fuel_limits, AsBlend};
ghost use Rattle.limits.specs.Concentration.{mass_concentration};

use answer::{Figure, RoundedFigure};
use blend::{Blend, Blended, Limits};
use elements::Atoms;
use formula::{FormulaRead, read_formula};
use text::Written;

#[unsafe(no_mangle)]
#[tactic(auto, unfolding(formula::specs::Reading::formula_read))]
pub extern "C" fn jlw_read_formula(text: &[u8]) -> FormulaRead
    ensures value { result ≡ formula_read text.now }
    ensures grammar { ByGrammar text.now result }
{
    read_formula(text).into()
}

#[unsafe(no_mangle)]
#[tactic(auto, unfolding(hill::specs::Writing::formula_written), using(text::proofs::Writings::length_shown))]
pub extern "C" fn jlw_write_formula(
    c: u64,
    h: u64,
    o: u64,
    n: u64,
    s: u64,
    p: u64,
    f: u64,
    cl: u64,
    br: u64,
    si: u64,
    out: &mut [u8],
) -> Written
    ensures value { result ≡ formula_written (record { count = c ∷ h ∷ o ∷ n ∷ s ∷ p ∷ f ∷ cl ∷ br ∷ si ∷ [] }) out.old }
    ensures room { out.new ≡ room_after (record { count = c ∷ h ∷ o ∷ n ∷ s ∷ p ∷ f ∷ cl ∷ br ∷ si ∷ [] }) out.old }
    ensures round_trip { RoundTrip }
    ensures longest { Longest 43 out.old result }
    ensures by_symbol { BySymbol }
{
    let atoms = Atoms {
        count: [c, h, o, n, s, p, f, cl, br, si],
    };
    hill::write_formula(atoms, out).into()
}

// β in quarters.
#[unsafe(no_mangle)]
pub extern "C" fn jlw_oxygen_coefficient(text: &[u8]) -> Figure
    ensures { result ≡ shown_figure (of_text oxygen_coefficient text.now) }
{
    read_formula(text)
        .and_then(oxygen::oxygen_coefficient)
        .into()
}

// In hundredths of a percent.
#[unsafe(no_mangle)]
pub extern "C" fn jlw_stoichiometric_fraction(text: &[u8]) -> RoundedFigure
    ensures { result ≡ shown_rounded (of_text stoichiometric_fraction text.now) }
{
    read_formula(text)
        .and_then(oxygen::stoichiometric_fraction)
        .into()
}

#[unsafe(no_mangle)]
pub extern "C" fn jlw_fuel_limits(text: &[u8]) -> Limits
    ensures value { result ≡ shown_limits (of_text (fuel_limits None) text.now) }
    ensures at_most { (result.lower ≤ 10000) × (result.upper ≤ 10000) }
    ensures as_blend { AsBlend (fuel-text text.now) None }
{
    read_formula(text).and_then(limits::fuel_limits).into()
}

#[unsafe(no_mangle)]
pub extern "C" fn jlw_fuel_limits_at(text: &[u8], temperature: i64) -> Limits
    ensures value { result ≡ shown_limits (of_text (fuel_limits (Some temperature)) text.now) }
    ensures at_most { (result.lower ≤ 10000) × (result.upper ≤ 10000) }
    ensures as_blend { AsBlend (fuel-text text.now) (Some temperature) }
{
    read_formula(text)
        .and_then(|fuel| limits::fuel_limits_at(fuel, temperature))
        .into()
}

// In 0.01 g/m³.
#[unsafe(no_mangle)]
pub extern "C" fn jlw_mass_concentration(text: &[u8], temperature: i64) -> Limits
    ensures { result ≡ shown_limits (of_text (mass_concentration temperature) text.now) }
{
    read_formula(text)
        .and_then(|fuel| limits::mass_concentration(fuel, temperature))
        .into()
}

#[unsafe(no_mangle)]
pub extern "C" fn jlw_empty_blend() -> Blend
    ensures value { result ≡ empty_blend }
    ensures every_list { (calls : List Call) → Claims calls }
    ensures marks { (calls : List Call) → MarksAlike calls }
{
    blend::empty_blend()
}

#[unsafe(no_mangle)]
pub extern "C" fn jlw_add_fuel(
    total: u64,
    lower: u64,
    upper: u64,
    text: &[u8],
    parts: u64,
) -> Blended
    ensures { result ≡ shown_blend (blend_of total lower upper) (adding (blend_of total lower upper) (fuel-text text.now) parts) }
{
    let given = Blend {
        total,
        lower,
        upper,
    };
    Blended::of(given, blend::add_fuel_text(given, text, parts))
}

#[unsafe(no_mangle)]
pub extern "C" fn jlw_join_blends(
    total: u64,
    lower: u64,
    upper: u64,
    other_total: u64,
    other_lower: u64,
    other_upper: u64,
) -> Blended
    ensures { result ≡ shown_blend (blend_of total lower upper) (joining (blend_of total lower upper) (blend_of other_total other_lower other_upper)) }
{
    let first = Blend {
        total,
        lower,
        upper,
    };
    let second = Blend {
        total: other_total,
        lower: other_lower,
        upper: other_upper,
    };
    Blended::of(first, blend::join_blends(first, second))
}

#[unsafe(no_mangle)]
pub extern "C" fn jlw_blend_limits(total: u64, lower: u64, upper: u64) -> Limits
    ensures value { result ≡ shown_limits (asking_marked (blend_of total lower upper) (asked-limits None)) }
    ensures at_most { (result.lower ≤ 10000) × (result.upper ≤ 10000) }
    ensures in_claim { limits_told result ≡ asking (blend_of total lower upper) (asked-limits None) }
{
    let asked = Blend {
        total,
        lower,
        upper,
    };
    blend::blend_limits(asked).into()
}

#[unsafe(no_mangle)]
pub extern "C" fn jlw_blend_limits_at(
    total: u64,
    lower: u64,
    upper: u64,
    temperature: i64,
) -> Limits
    ensures value { result ≡ shown_limits (asking_marked (blend_of total lower upper) (asked-limits (Some temperature))) }
    ensures at_most { (result.lower ≤ 10000) × (result.upper ≤ 10000) }
    ensures at_fit { OneAtFit }
    ensures in_claim { limits_told result ≡ asking (blend_of total lower upper) (asked-limits (Some temperature)) }
{
    let asked = Blend {
        total,
        lower,
        upper,
    };
    blend::blend_limits_at(asked, temperature).into()
}
