// Bytes of text: reading one, appending text and numbers to a line, putting them into a lent buffer, and writing a whole text there.
#![tactic(auto)]

ghost use Rattle.std.specs.Prelude.{◌≡◌, [], ◌∷◌, ◌+◌, ◌/◌, ◌%◌, ◌<◌, ◌≤◌, ◌++◌, length, get_or};
ghost use Rattle.answer.specs.Outcome.{refused, told};
ghost use Rattle.text.specs.Bytes.{byte};
ghost use Rattle.text.specs.Decimal.{decimal, digit_from};
ghost use Rattle.text.specs.Line.{appended};
ghost use Rattle.text.specs.Room.{put_at, behind};
ghost use Rattle.text.specs.Writing.{placed, length_of, shown_written, holding};

use answer::{NOT_REFUSED, Reason, Refusal, Refused};
use arrayvec::ArrayVec;

// The length of a text that was written, or a refusal and 0, for the C interface.
#[repr(C)]
#[derive(Clone, Copy, Debug, PartialEq, Eq)]
pub struct Written {
    pub refusal: Refusal,
    pub length: u64,
}

impl From<Result<usize, Refused>> for Written {
    ghost from_gives = { λ answer written. written ≡ shown_written (told answer) };

    fn from(answer: Result<usize, Refused>) -> Written {
        match answer {
            Ok(length) => Written {
                refusal: NOT_REFUSED,
                length: length as u64,
            },
            Err(refused) => Refusal::from(refused).into(),
        }
    }
}

impl From<Refusal> for Written {
    ghost from_gives = { λ refusal written. written ≡ shown_written (refused refusal) };

    fn from(refusal: Refusal) -> Written {
        Written { refusal, length: 0 }
    }
}

// The byte at a position; 0 at the end and past it, which the clause promises: `at` of specs/Reader, by which formulas are read.
pub fn byte_at(s: &[u8], at: usize) -> u8
    ensures { result ≡ get_or s.now at 0 }
{
    s.get(at).copied().unwrap_or(0)
}

// Whether b is the byte of a decimal digit that is not below `from`.
#[tactic(auto, unfolding(crate::specs::Decimal::digit_from))]
pub fn is_digit_from(from: u8, b: u8) -> bool
    ensures { result ≡ digit_from from b }
{
    b.is_ascii_digit() && from <= b - b'0'
}

// Appends s to a line, where it fits; else the line stays.
#[tactic(auto, unfolding(crate::specs::Line::appended))]
pub fn put<const N: usize>(line: &mut ArrayVec<u8, N>, s: &[u8])
    ensures { line.new.items ≡ appended N line.old.items s.now }
{
    let _fits = line.try_extend_from_slice(s);
}

// Puts s into out at a position, and answers the position behind it. Where it does not fit, out stays and the answer is the given position.
#[tactic(auto, unfolding(crate::specs::Room::put_at, crate::specs::Room::behind))]
pub fn put_at(out: &mut [u8], at: usize, s: &[u8]) -> usize
    ensures value { result ≡ behind out.old at s.now }
    ensures room { out.new ≡ put_at out.old at s.now }
{
    if out.len() < s.len() || out.len() - s.len() < at {
        return at;
    }
    out[at..at + s.len()].copy_from_slice(s);
    at + s.len()
}

// Writes s whole at the start of out, and answers its length; the bytes behind it stay. Refusal 17 where out is too short, which leaves all of out as it was.
#[tactic(auto, unfolding(crate::specs::Room::put_at, crate::specs::Writing::placed))]
pub fn write_whole(out: &mut [u8], s: &[u8]) -> Result<usize, Refused>
    ensures value { told result ≡ length_of (placed (length out.old) s.now) }
    ensures room { out.new ≡ holding out.old (placed (length out.old) s.now) }
{
    if out.len() < s.len() {
        return Err(Reason::NoRoom.at(0));
    }
    out[..s.len()].copy_from_slice(s);
    Ok(s.len())
}

// The byte of a digit.
fn digit(n: u64) -> u8
    requires { n < 10 }
    ensures { result ≡ byte "0" + n }
{
    b'0' + n as u8
}

// Appends both digits of a number below 100, of which the first may be 0.
fn push_two(digits: &mut ArrayVec<u8, 20>, n: u64)
    requires below { n < 100 }
    requires room { length digits.old.items ≤ 18 }
    ensures { digits.new.items ≡ digits.old.items ++ (byte "0" + n / 10) ∷ (byte "0" + n % 10) ∷ [] }
{
    let by_ten = rounding::divide(n, 10);
    digits.push(digit(by_ten.quotient));
    digits.push(digit(by_ten.remainder));
}

// Appends the decimal digits of n, by recursion on those before the last two. By hand, since the library prints a number by dividing, and nothing divides but
// `rounding`; into one array, since each copy of it costs more than a digit.
#[tactic(auto, using(crate::proofs::Decimals::by_two_digits))]
fn push_digits(digits: &mut ArrayVec<u8, 20>, n: u64)
    requires { length digits.old.items + length (decimal n) ≤ 20 }
    ensures { digits.new.items ≡ digits.old.items ++ decimal n }
{
    if 99 < n {
        let by_hundred = rounding::divide(n, 100);
        push_digits(digits, by_hundred.quotient);
        return push_two(digits, by_hundred.remainder);
    }
    if 9 < n {
        return push_two(digits, n);
    }
    digits.push(digit(n))
}

// The decimal digits of n.
#[tactic(auto, using(crate::proofs::Decimals::digits_most))]
fn digits_of(n: u64) -> ArrayVec<u8, 20>
    ensures { result.items ≡ decimal n }
{
    let mut digits = ArrayVec::new();
    push_digits(&mut digits, n);
    digits
}

// Appends the decimal digits of a number below 1000, as put does: one, two or three bytes, which need no array of 20.
#[tactic(auto, using(crate::proofs::Decimals::by_three_digits))]
fn put_short<const N: usize>(line: &mut ArrayVec<u8, N>, n: u64)
    requires { n < 1000 }
    ensures { line.new.items ≡ appended N line.old.items (decimal n) }
{
    if n < 10 {
        return put(line, &[digit(n)]);
    }
    let by_ten = rounding::divide(n, 10);
    if n < 100 {
        return put(line, &[digit(by_ten.quotient), digit(by_ten.remainder)]);
    }
    let again = rounding::divide(by_ten.quotient, 10);
    put(
        line,
        &[
            digit(again.quotient),
            digit(again.remainder),
            digit(by_ten.remainder),
        ],
    )
}

// Appends the decimal digits of n to a line, as put does.
pub fn put_decimal<const N: usize>(line: &mut ArrayVec<u8, N>, n: u64)
    ensures { line.new.items ≡ appended N line.old.items (decimal n) }
{
    if n < 1000 {
        return put_short(line, n);
    }
    put(line, &digits_of(n))
}

// Puts the decimal digits of n into out at a position, as put_at does.
pub fn put_decimal_at(out: &mut [u8], at: usize, n: u64) -> usize
    ensures value { result ≡ behind out.old at (decimal n) }
    ensures room { out.new ≡ put_at out.old at (decimal n) }
{
    put_at(out, at, &digits_of(n))
}
