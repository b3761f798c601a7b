// How answers are shown: hundredths with two decimals, a rounded figure with its mark, and a refusal in the place of an answer.
use answer::{Mark, Refused, Rounded};
use blend::LimitPair;
use elements::Atoms;
use std::{fmt, io};

// A number of hundredths.
#[derive(Clone, Copy)]
pub struct Hundredths(pub u64);

impl fmt::Display for Hundredths {
    fn fmt<W: fmt::Write>(&self, f: &mut fmt::Formatter<W>) -> fmt::Result {
        let exact = rounding::divide(self.0, 100);
        write!(f, "{}.{:02}", exact.quotient, exact.remainder)
    }
}

// A temperature in hundredths of a degree.
#[derive(Clone, Copy)]
pub struct Degrees(pub i64);

impl fmt::Display for Degrees {
    fn fmt<W: fmt::Write>(&self, f: &mut fmt::Formatter<W>) -> fmt::Result {
        let sign = if self.0 < 0 { "-" } else { "" };
        write!(f, "{sign}{}", Hundredths(rounding::size(self.0)))
    }
}

// A rounded figure as it is shown, and its mark.
#[derive(Clone, Copy)]
pub struct Marked<T>(T, Mark);

impl<T: fmt::Display> fmt::Display for Marked<T> {
    fn fmt<W: fmt::Write>(&self, f: &mut fmt::Formatter<W>) -> fmt::Result {
        write!(f, "{} {}", self.0, self.1)
    }
}

// A rounded count of parts, a figure in hundredths and a temperature.
pub fn rounded_parts(figure: Rounded<u64>) -> Marked<u64> {
    Marked(figure.value, figure.mark)
}

pub fn rounded_hundredths(figure: Rounded<u64>) -> Marked<Hundredths> {
    Marked(Hundredths(figure.value), figure.mark)
}

pub fn rounded_degrees(temperature: Rounded<i64>) -> Marked<Degrees> {
    Marked(Degrees(temperature.value), temperature.mark)
}

// Both limits.
#[derive(Clone, Copy)]
pub struct Limits(pub LimitPair<Rounded<u64>>);

impl fmt::Display for Limits {
    fn fmt<W: fmt::Write>(&self, f: &mut fmt::Formatter<W>) -> fmt::Result {
        write!(
            f,
            "{}, {}",
            rounded_hundredths(self.0.lower),
            rounded_hundredths(self.0.upper)
        )
    }
}

// Shows a name and what is answered, or why it is refused.
pub fn show_answer<T: fmt::Display + Copy>(
    rt: &impl Print,
    name: &impl fmt::Display,
    answer: Result<T, Refused>,
) -> io::Result<()> {
    match answer {
        Ok(value) => println!(rt; "{name}: {value}"),
        Err(refused) => println!(rt; "{name}: {refused}"),
    }
}

// The formula of atom counts, in Hill order.
#[derive(Clone, Copy)]
pub struct Formula(pub Atoms);

impl fmt::Display for Formula {
    fn fmt<W: fmt::Write>(&self, f: &mut fmt::Formatter<W>) -> fmt::Result {
        let mut out = [0u8; 43];
        match hill::write_formula(self.0, &mut out) {
            Ok(length) => f.write_str(str::from_utf8(&out[..length]).unwrap_or("")),
            Err(refused) => write!(f, "{refused}"),
        }
    }
}
