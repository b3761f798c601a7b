// Quotients of whole numbers by shifts, compares and subtractions: exact, and rounded once with their mark. No file divides but by a constant power of two.
#![tactic(auto)]

ghost use Rattle.std.specs.Prelude.{◌≡◌, cond, leb, ◌≤◌, ◌<◌, pos, neg_ℤ, nat_abs};
ghost use Rattle.rounding.specs.Round.{divided, round_div, round_div_ℤ};
ghost use Rattle.rounding.specs.Rounds.{Rounds, Rounds_ℤ};
ghost use Rattle.rounding.specs.Internal.{Doubled};

use answer::{Mark, Rounded};

#[repr(C)]
#[derive(Clone, Copy, Debug, PartialEq, Eq)]
pub struct Quotient {
    pub quotient: u64,
    pub remainder: u64,
}

// `more` where the multiple is at most a limit, else the multiple.
fn grown(multiple: u64, limit: u64, more: u64) -> u64
    ensures { result ≡ cond (leb multiple limit) more multiple }
{
    if multiple <= limit {
        return more;
    }
    multiple
}

// d doubled as often as it stays at most n. Of `within_k`, k doublings more exceed n. The shifts are by constants, so that the compiler makes a step without a
// jump.
fn doubled(n: u64, d: u64) -> u64
    requires { (0 < d) × (d ≤ n) }
    ensures { Doubled n d 1 result }
{
    let within_32 = grown(d, n >> 32, d << 32);
    let within_16 = grown(within_32, n >> 16, within_32 << 16);
    let within_8 = grown(within_16, n >> 8, within_16 << 8);
    let within_4 = grown(within_8, n >> 4, within_8 << 4);
    let within_2 = grown(within_4, n >> 2, within_4 << 2);
    grown(within_2, n >> 1, within_2 << 1)
}

// A bit of the quotient for each halving of the multiple, down to d: 1 where it can be subtracted. The first bit is 1.
fn subtracted(n: u64, d: u64, first: u64) -> Quotient
    requires { Doubled n d 1 first }
    ensures { result ≡ divided n d }
{
    let mut multiple = first;
    let mut quotient: u64 = 1;
    let mut remainder = n - first;
    while d < multiple {
        multiple >>= 1;
        quotient <<= 1;
        if multiple <= remainder {
            remainder -= multiple;
            quotient += 1;
        }
    }
    Quotient {
        quotient,
        remainder,
    }
}

// Quotient and remainder. By 0 the quotient is 0 and the remainder n.
pub fn divide(n: u64, d: u64) -> Quotient
    ensures { result ≡ divided n d }
{
    if d == 0 || n < d {
        return Quotient {
            quotient: 0,
            remainder: n,
        };
    }
    subtracted(n, d, doubled(n, d))
}

// n / d rounded once, halves up, and whether that is exact, raised or lowered. By 0 both are 0.
pub fn round_div(n: u64, d: u64) -> Rounded<u64>
    ensures value { result ≡ round_div n d }
    ensures rounds { Rounds n d result }
{
    if d == 0 {
        return Rounded {
            value: 0,
            mark: Mark::Exact,
        };
    }
    let divided = divide(n, d);
    let q = divided.quotient;
    let rest = divided.remainder;
    if rest == 0 {
        return Rounded {
            value: q,
            mark: Mark::Exact,
        };
    }
    let missing = d - rest;
    if missing <= rest {
        return Rounded {
            value: q + 1,
            mark: Mark::Raised,
        };
    }
    Rounded {
        value: q,
        mark: Mark::Lowered,
    }
}

// The size of a signed number. (It is the library's; its promise and its edits stand here.)
pub fn size(n: i64) -> u64
    ensures { result ≡ nat_abs n }
{
    n.unsigned_abs()
}

// n / d rounded once, halves away from zero, with the mark of its size. By 0 both are 0.
pub fn round_div_signed(n: i64, d: u64) -> Rounded<i64>
    ensures value { result ≡ round_div_ℤ n d }
    ensures rounds { Rounds_ℤ n d result }
{
    let Rounded { value, mark } = round_div(size(n), d);
    if n < 0 {
        return Rounded {
            value: 0i64.checked_sub_unsigned(value).unwrap(),
            mark,
        };
    }
    Rounded {
        value: value as i64,
        mark,
    }
}
