// The lower temperature limit and formula (35): each question as a condition on a temperature and a pressure, and put to a vapour curve.
#![tactic(auto)]

ghost use Rattle.std.specs.Prelude.{◌≡◌, ◌≤◌};
ghost use Rattle.answer.specs.Outcome.{told};
ghost use Rattle.curve.specs.Curve.{curve, Sound};
ghost use Rattle.ignition.specs.Questions.{threshold, purpose_of, limit_test, flash_test, lower_temperature_limit, flash_by_curve};
ghost use Rattle.ignition.specs.Conditions.{limit_condition, flash_condition, tested_by};

use answer::{PointMethod, Reason, Refused, is_outside};
use blend::FIT_TEMPERATURE;
use curve::{Condition, smallest_hundredth};
use elements::Atoms;
use limits::fuel_limits_at;
use oxygen::{Purpose, admit};

// The condition of the lower temperature limit of a fuel. Refusals 2, 3, 4 as for limits.
#[tactic(auto, unfolding(crate::specs::Questions::with_limit), using(crate::proofs::Tests::limit_tested))]
pub fn limit_condition(fuel: Atoms) -> Result<Condition, Refused>
    ensures value { told result ≡ limit_condition fuel }
    ensures as_printed { tested_by (limit_condition fuel) ≡ limit_test fuel }
{
    let limits = fuel_limits_at(fuel, FIT_TEMPERATURE)?;
    Ok(Condition {
        slope: 0,
        base: 100,
        level: 1013 * limits.lower.value,
    })
}

// The threshold of formula (35).
#[tactic(auto, unfolding(crate::specs::Questions::threshold))]
fn threshold_of(method: PointMethod) -> u64
    ensures value { result ≡ threshold method }
    ensures at_most { result ≤ 453 }
{
    match method {
        PointMethod::ClosedCup => 280,
        PointMethod::OpenCup => 427,
        PointMethod::FirePoint => 453,
    }
}

// What a fuel has to be admitted to.
fn purpose_of(method: PointMethod) -> Purpose
    ensures { result ≡ purpose_of method }
{
    match method {
        PointMethod::ClosedCup | PointMethod::OpenCup => Purpose::OxygenCoefficient,
        PointMethod::FirePoint => Purpose::FirePoint,
    }
}

// The condition of formula (35): method 1 closed cup, 2 open cup, 3 fire point, and C hands in any number; the diffusion coefficient in units of 0.0001 cm²/s.
// Refusals 16, 2, 3, 4, 18.
#[tactic(auto, unfolding(crate::specs::Questions::with_oxygen), using(crate::proofs::Tests::flash_tested, crate::proofs::Tests::slope_most))]
pub fn flash_condition(method: u64, fuel: Atoms, diffusion: u64) -> Result<Condition, Refused>
    ensures value { told result ≡ flash_condition method fuel diffusion }
    ensures as_printed { tested_by (flash_condition method fuel diffusion) ≡ flash_test method fuel diffusion }
{
    let method = PointMethod::try_from(method)?;
    let oxygen = admit(purpose_of(method), fuel)?;
    if is_outside(1, 20000, diffusion) {
        return Err(Reason::DiffusionOutside.at(0));
    }
    Ok(Condition {
        slope: diffusion * oxygen,
        base: 0,
        level: threshold_of(method) * 4000000000,
    })
}

// The lower temperature limit of a fuel. Refusals 2, 3, 4 as for limits, then 11, 12, 13. (Here and below a curve is its two lists, as C hands them in.)
#[tactic(auto, unfolding(crate::specs::Questions::lower_temperature_limit), using(crate::proofs::Tests::put_to_curve, curve::proofs::Searches::sound))]
pub fn lower_temperature_limit(
    fuel: Atoms,
    temperatures: &[i64],
    pressures: &[u64],
) -> Result<i64, Refused>
    ensures value { told result ≡ lower_temperature_limit fuel (curve temperatures.now pressures.now) }
    ensures sound { Sound (curve temperatures.now pressures.now) }
{
    smallest_hundredth(limit_condition(fuel)?, temperatures, pressures)
}

// Formula (35) on a curve; C hands in any method number. Refusals 16, 2, 3, 4, 18, 11, 12, 13.
#[tactic(auto, unfolding(crate::specs::Questions::flash_by_curve), using(crate::proofs::Tests::put_to_curve, curve::proofs::Searches::sound))]
pub fn flash_by_curve(
    method: u64,
    fuel: Atoms,
    diffusion: u64,
    temperatures: &[i64],
    pressures: &[u64],
) -> Result<i64, Refused>
    ensures value { told result ≡ flash_by_curve method fuel diffusion (curve temperatures.now pressures.now) }
    ensures sound { Sound (curve temperatures.now pressures.now) }
{
    smallest_hundredth(
        flash_condition(method, fuel, diffusion)?,
        temperatures,
        pressures,
    )
}
