// The limits of a fuel alone, which is a blend of it at 1 part, and its mass concentration at them.
#![tactic(auto)]

ghost use Rattle.std.specs.Prelude.{◌≡◌, ◌≤◌, IfOk, Some, None};
ghost use Rattle.answer.specs.Outcome.{told};
ghost use Rattle.blend.specs.Fuel.{counts};
ghost use Rattle.blend.specs.Blend.{AtMost100};
ghost use Rattle.limits.specs.FuelLimits.{fuel_limits, AsBlend};
ghost use Rattle.limits.specs.Concentration.{mass_concentration};
ghost use Rattle.limits.specs.Internal.{rate};

use answer::{Refused, Rounded};
use blend::{LimitPair, USUAL_TEMPERATURE, add_fuel, blend_limits_at, empty_blend, molar_mass};
use elements::Atoms;
use rounding::{round_div, size};

// Both limits of a fuel at a temperature in hundredths of a degree, at most 100.00 %. Refusals 2, 3, 4, 10.
#[tactic(auto, using(crate::proofs::Alone::by_blend))]
pub fn fuel_limits_at(fuel: Atoms, temperature: i64) -> Result<LimitPair<Rounded<u64>>, Refused>
    ensures value { told result ≡ fuel_limits (Some temperature) fuel }
    ensures at_most { IfOk result AtMost100 }
    ensures as_blend { AsBlend (counts fuel) (Some temperature) }
{
    blend_limits_at(add_fuel(empty_blend(), fuel, 1)?, temperature)
}

// The same with no temperature named. Refusals 2, 3, 4.
#[tactic(auto, unfolding(crate::specs::FuelLimits::fuel_limits))]
pub fn fuel_limits(fuel: Atoms) -> Result<LimitPair<Rounded<u64>>, Refused>
    ensures value { told result ≡ fuel_limits None fuel }
    ensures at_most { IfOk result AtMost100 }
    ensures as_blend { AsBlend (counts fuel) None }
{
    fuel_limits_at(fuel, USUAL_TEMPERATURE)
}

// The mass concentration at a limit, for a molar mass in halves: 10 M φ / Vm as one quotient.
#[tactic(auto, unfolding(crate::specs::Internal::rate))]
fn rate_of(mass: u64, t: u64, limit: u64) -> Rounded<u64>
    requires { (mass ≤ 40000) × (t ≤ 20000) × (limit ≤ 10000) }
    ensures { result ≡ rate mass t limit }
{
    round_div(mass * limit * 5000 * 27315, 22414 * (t + 27315))
}

// The mass concentration of a fuel at both limits, in 0.01 g/m³; the limits are those answered, so a mark tells of the last rounding alone.
// Refusals 2, 3, 4, 10.
#[tactic(auto, unfolding(crate::specs::Concentration::mass_concentration))]
pub fn mass_concentration(fuel: Atoms, temperature: i64) -> Result<LimitPair<Rounded<u64>>, Refused>
    ensures { told result ≡ mass_concentration temperature fuel }
{
    let limits = fuel_limits_at(fuel, temperature)?;
    let mass = molar_mass(fuel);
    let t = size(temperature);
    Ok(LimitPair {
        lower: rate_of(mass, t, limits.lower.value),
        upper: rate_of(mass, t, limits.upper.value),
    })
}
