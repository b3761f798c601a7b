// The functions that tests call from outside, tests/testing.h: each with the promise of the function that it calls. A curve comes in as two lists, and an
// analyser's method as two floats, since C hands them so.
#![tactic(auto)]

ghost use Rattle.std.specs.Prelude.{◌≡◌, ◌≤◌, Some};
ghost use Rattle.answer.specs.Outcome.{shown_figure, shown_temperature, shown_rounded, shown_rounded_temperature};
ghost use Rattle.rounding.specs.Round.{divided};
ghost use Rattle.text.specs.Writing.{Longest};
ghost use Rattle.oxygen.specs.Admission.{oxygen_coefficient};
ghost use Rattle.blend.specs.Fuel.{counts};
ghost use Rattle.blend.specs.Blend.{adding, shown_blend, shown_limits};
ghost use Rattle.limits.specs.FuelLimits.{fuel_limits, AsBlend};
ghost use Rattle.flash.specs.Points.{by_bonds, by_class};
ghost use Rattle.curve.specs.Curve.{curve, Sound};
ghost use Rattle.ignition.specs.Questions.{lower_temperature_limit, flash_by_curve};
ghost use Rattle.analyser.specs.declared.Reading.TheVariants.{Percent, Ppm, Overload};
ghost use Rattle.analyser.specs.Reading.{method_of, parts_of};
ghost use Rattle.sheet.specs.Mixture.{sheet_answer};
ghost use Rattle.sheet.specs.ByModel.{ByModel};
ghost use Rattle.sheet.specs.Answer.{answer_of, answer_written, answer_room};

use analyser::{Method, Reading};
use answer::{Figure, Refusal, RoundedFigure, RoundedTemperature, Temperature};
use blend::{Blend, Blended, Limits};
use bonds::Bonds;
use elements::Atoms;
use rounding::Quotient;
use text::Written;

#[unsafe(no_mangle)]
pub extern "C" fn jlt_divide(n: u64, d: u64) -> Quotient
    ensures { result ≡ divided n d }
{
    rounding::divide(n, d)
}

#[unsafe(no_mangle)]
pub extern "C" fn jlt_flash_by_bonds(
    method: u64,
    atoms: Atoms,
    bonds: Bonds,
    boiling: i64,
) -> RoundedTemperature
    ensures { result ≡ shown_rounded_temperature (by_bonds method atoms bonds boiling) }
{
    flash::flash_by_bonds(method, atoms, bonds, boiling).into()
}

#[unsafe(no_mangle)]
pub extern "C" fn jlt_flash_by_class(class: u64, boiling: i64) -> RoundedTemperature
    ensures { result ≡ shown_rounded_temperature (by_class class boiling) }
{
    flash::flash_by_class(class, boiling).into()
}

#[unsafe(no_mangle)]
pub extern "C" fn jlt_flash_by_curve(
    method: u64,
    fuel: Atoms,
    diffusion: u64,
    temperatures: &[i64],
    pressures: &[u64],
) -> Temperature
    ensures value { result ≡ shown_temperature (flash_by_curve method fuel diffusion (curve temperatures.now pressures.now)) }
    ensures sound { Sound (curve temperatures.now pressures.now) }
{
    ignition::flash_by_curve(method, fuel, diffusion, temperatures, pressures).into()
}

#[unsafe(no_mangle)]
pub extern "C" fn jlt_lower_temperature_limit(
    fuel: Atoms,
    temperatures: &[i64],
    pressures: &[u64],
) -> Temperature
    ensures value { result ≡ shown_temperature (lower_temperature_limit fuel (curve temperatures.now pressures.now)) }
    ensures sound { Sound (curve temperatures.now pressures.now) }
{
    ignition::lower_temperature_limit(fuel, temperatures, pressures).into()
}

#[unsafe(no_mangle)]
pub extern "C" fn jlt_parts_of_percent(limit: f64, ceiling: f64, reading: f64) -> RoundedFigure
    ensures value { result ≡ shown_rounded (parts_of (method_of limit ceiling) (Percent reading)) }
    ensures at_most { result.value ≤ 1000000 }
{
    analyser::parts_of(Method { limit, ceiling }, Reading::Percent(reading)).into()
}

#[unsafe(no_mangle)]
pub extern "C" fn jlt_parts_of_ppm(limit: f64, ceiling: f64, reading: f64) -> RoundedFigure
    ensures value { result ≡ shown_rounded (parts_of (method_of limit ceiling) (Ppm reading)) }
    ensures at_most { result.value ≤ 1000000 }
{
    analyser::parts_of(Method { limit, ceiling }, Reading::Ppm(reading)).into()
}

#[unsafe(no_mangle)]
pub extern "C" fn jlt_parts_of_overload(limit: f64, ceiling: f64) -> RoundedFigure
    ensures value { result ≡ shown_rounded (parts_of (method_of limit ceiling) Overload) }
    ensures at_most { result.value ≤ 1000000 }
{
    analyser::parts_of(Method { limit, ceiling }, Reading::Overload).into()
}

#[unsafe(no_mangle)]
pub extern "C" fn jlt_add_fuel(blend: Blend, fuel: Atoms, parts: u64) -> Blended
    ensures { result ≡ shown_blend blend (adding blend (counts fuel) parts) }
{
    Blended::of(blend, blend::add_fuel(blend, fuel, parts))
}

#[unsafe(no_mangle)]
pub extern "C" fn jlt_fuel_limits_at(fuel: Atoms, temperature: i64) -> Limits
    ensures value { result ≡ shown_limits (fuel_limits (Some temperature) fuel) }
    ensures at_most { (result.lower ≤ 10000) × (result.upper ≤ 10000) }
    ensures as_blend { AsBlend (counts fuel) (Some temperature) }
{
    limits::fuel_limits_at(fuel, temperature).into()
}

#[unsafe(no_mangle)]
pub extern "C" fn jlt_oxygen_coefficient(fuel: Atoms) -> Figure
    ensures value { result ≡ shown_figure (oxygen_coefficient fuel) }
    ensures bounded { result.value ≤ 3800 }
{
    oxygen::oxygen_coefficient(fuel).into()
}

#[unsafe(no_mangle)]
pub extern "C" fn jlt_sheet_answer(sheet: &[u8]) -> Limits
    ensures value { result ≡ shown_limits (sheet_answer sheet.now) }
    ensures by_model { ByModel sheet.now }
{
    sheet::sheet_answer(sheet).into()
}

#[unsafe(no_mangle)]
pub extern "C" fn jlt_write_sheet_answer(
    declined: Refusal,
    lower: u64,
    upper: u64,
    out: &mut [u8],
) -> Written
    ensures value { result ≡ answer_written (answer_of declined lower upper) out.old }
    ensures room { out.new ≡ answer_room (answer_of declined lower upper) out.old }
    ensures longest { Longest 76 out.old result }
{
    let answer = Limits {
        refusal: declined,
        lower,
        upper,
        lower_mark: 0,
        upper_mark: 0,
    };
    sheet::write_answer(answer, out).into()
}
