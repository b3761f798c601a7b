// Analyser readings: a reading taken to whole parts per million, from the exact value of its float.
#![tactic(auto)]

ghost use Rattle.std.specs.Prelude.{◌≡◌, ◌*◌, ◌^◌, ◌≤◌, not, T, IfOk};
ghost use Rattle.answer.specs.Numbers.{bad_reading};
ghost use Rattle.answer.specs.Outcome.{told, answered, refuse};
ghost use Rattle.rounding.specs.Fraction.{rounded, whole, ◌⊠◌};
ghost use Rattle.analyser.specs.Reading.{is_amount, amount, up_to, good_method, measured, parts_of};
ghost use Rattle.analyser.specs.Internal.{Small, Top, AtMostMillion};

use answer::{Mark, Reason, Refused, Rounded};
use rounding::round_div;

// An analyser's method: its detection limit and its ceiling, in the reading's unit.
#[derive(Clone, Copy, Debug, PartialEq)]
pub struct Method {
    pub limit: f64,
    pub ceiling: f64,
}

#[derive(Clone, Copy, Debug, PartialEq)]
pub enum Reading {
    Percent(f64),
    Ppm(f64),
    Overload,
}

// A unit of factor · 2 ^ twos parts, of which `top` make 1,000,000.
#[derive(Clone, Copy)]
struct Scale {
    top: f64,
    factor: u64,
    twos: u64,
    ghost small: { Small factor twos },
    ghost million: { Top top (factor * 2 ^ twos) },
}

// A percent is 10,000 = 625 · 2 ^ 4 parts: 53 bits times 625 fit into 64.
const PERCENT: Scale = Scale {
    top: 100.0,
    factor: 625,
    twos: 4,
};

const PPM: Scale = Scale {
    top: 1000000.0,
    factor: 1,
    twos: 0,
};

// The least sum of exponent and twos of half a part.
const HALF: u64 = 1012;

// Whether 0 ≤ x ≤ high.
fn is_up_to(x: f64, high: f64) -> bool
    requires { T (is_amount high) }
    ensures { result ≡ up_to x (amount high) }
{
    0.0 <= x && x <= high
}

// Refuses a method unless 0 ≤ limit ≤ ceiling ≤ top.
fn check_method(method: Method, top: f64) -> Result<(), Refused>
    requires { T (is_amount top) }
    ensures { told result ≡ refuse bad_reading 0 (not (good_method (amount top) method)) (answered tt) }
{
    if is_up_to(method.ceiling, top) && is_up_to(method.limit, method.ceiling) {
        return Ok(());
    }
    Err(Reason::BadReading.at(0))
}

impl Scale {
    // x units in parts, rounded. By its bits x is significand · 2 ^ (exponent − 1075), or below 2 ^ −1022 where the exponent is 0.
    fn whole_parts(self, x: f64) -> Rounded<u64>
        requires { AtMostMillion x (self.factor * 2 ^ self.twos) }
        ensures { result ≡ rounded (whole (self.factor * 2 ^ self.twos) ⊠ amount x) }
    {
        let bits = f64::to_bits(x) % 0x8000_0000_0000_0000;
        let exponent = bits / 0x10_0000_0000_0000;
        if exponent + self.twos < HALF {
            // Below half a part. bits / 2 ^ 63 is below a half too, and 0 only where x is, so both are rounded alike.
            return round_div(bits, 0x8000_0000_0000_0000);
        }
        let significand = bits % 0x10_0000_0000_0000 + 0x10_0000_0000_0000;
        let shift = 1075 - exponent - self.twos;
        round_div(significand * self.factor, 1u64 << shift)
    }

    // The answer to a reading of x units: no parts, exactly, below the limit.
    fn measure(self, method: Method, x: f64) -> Result<Rounded<u64>, Refused>
        ensures value { told result ≡ measured (amount self.top) (self.factor * 2 ^ self.twos) method x }
        ensures at_most { IfOk result (λ parts. parts.value ≤ 1000000) }
    {
        check_method(method, self.top)?;
        if !is_up_to(x, method.ceiling) {
            return Err(Reason::BadReading.at(1));
        }
        if method.limit <= x {
            return Ok(self.whole_parts(x));
        }
        Ok(Rounded {
            value: 0,
            mark: Mark::Exact,
        })
    }
}

// The parts per million of a reading. An overload's method is in parts per million. Refusal 14.
pub fn parts_of(method: Method, reading: Reading) -> Result<Rounded<u64>, Refused>
    ensures value { told result ≡ parts_of method reading }
    ensures at_most { IfOk result (λ parts. parts.value ≤ 1000000) }
{
    match reading {
        Reading::Percent(x) => PERCENT.measure(method, x),
        Reading::Ppm(x) => PPM.measure(method, x),
        Reading::Overload => {
            check_method(method, PPM.top)?;
            Err(Reason::BadReading.at(1))
        }
    }
}
