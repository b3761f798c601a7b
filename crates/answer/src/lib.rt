// What a question is answered with: a value, or why it is refused and at which place, both as C is shown them too; a figure that was rounded, with its mark;
// numbers outside a range, and the numbers of the methods.
#![tactic(auto)]

ghost use Rattle.std.specs.Prelude.{◌≡◌, ◌<◌, ℤ, pos};
ghost use Rattle.std.specs.Int.Signed.{lt_z};
ghost use Rattle.answer.specs.Methods.{method_named};
ghost use Rattle.answer.specs.Outcome.{refused, refusal, refused_at, told, refusal_of, shown_refusal, shown_figure, shown_temperature, shown_rounded, shown_rounded_temperature};
ghost use Rattle.answer.specs.Outside.{outside};

use std::fmt;

// Why a question is refused, by the numbers of document 01's table. specs/Numbers.antt says what each is given for.
#[derive(Clone, Copy, Debug, PartialEq, Eq)]
pub enum Reason {
    NoFormula = 1,
    CountTooLarge = 2,
    ElementNotAdmitted = 3,
    OxygenTooLow = 4,
    HydrogenDiffers = 5,
    NoCoefficient = 6,
    BoilingPointOutside = 7,
    TotalTooLarge = 8,
    BlendEmpty = 9,
    GasTemperatureOutside = 10,
    BadCurve = 11,
    TrueAtFirst = 12,
    FalseAtLast = 13,
    BadReading = 14,
    BadSheet = 15,
    UnknownMethod = 16,
    NoRoom = 17,
    DiffusionOutside = 18,
    BlendOutOfBounds = 28,
}

// A reason and a place: the error of every question.
#[derive(Clone, Copy, Debug, PartialEq, Eq)]
pub struct Refused {
    pub reason: Reason,
    pub place: u64,
}

impl Reason {
    // The refusal for this reason at a place.
    pub fn at(self, place: u64) -> Refused
        ensures { result ≡ refused_at self place }
    {
        Refused {
            reason: self,
            place,
        }
    }
}

// How the size of a rounded figure stands to that of the exact fraction: it is the same, larger or smaller.
#[derive(Clone, Copy, Debug, PartialEq, Eq)]
pub enum Mark {
    Exact = 0,
    Raised = 1,
    Lowered = 2,
}

// A figure that was rounded, and its mark.
#[derive(Clone, Copy, Debug, PartialEq, Eq)]
pub struct Rounded<T> {
    pub value: T,
    pub mark: Mark,
}

// The methods of flash and fire points, by the numbers that they are asked for with.
#[derive(Clone, Copy, Debug, PartialEq, Eq)]
pub enum PointMethod {
    ClosedCup = 1,
    OpenCup = 2,
    FirePoint = 3,
}

impl TryFrom<u64> for PointMethod {
    type Error = Refused;

    ghost try_from_gives = { λ number answer. told answer ≡ method_named number };

    fn try_from(number: u64) -> Result<PointMethod, Refused> {
        match number {
            1 => Ok(PointMethod::ClosedCup),
            2 => Ok(PointMethod::OpenCup),
            3 => Ok(PointMethod::FirePoint),
            _ => Err(Reason::UnknownMethod.at(0)),
        }
    }
}

// AS C IS SHOWN ANSWERS. Each value has a struct of its own, since a struct of an exported function has no type parameter: the C interface.
// A number of the table, and a place; two zeros where there is an answer.
#[repr(C)]
#[derive(Clone, Copy, Debug, PartialEq, Eq)]
pub struct Refusal {
    pub number: u64,
    pub place: u64,
}

// What an answer has that is not refused.
pub const NOT_REFUSED: Refusal = Refusal {
    number: 0,
    place: 0,
};

// A figure, or a refusal and 0.
#[repr(C)]
#[derive(Clone, Copy, Debug, PartialEq, Eq)]
pub struct Figure {
    pub refusal: Refusal,
    pub value: u64,
}

// A temperature in hundredths of a degree, or a refusal and 0.
#[repr(C)]
#[derive(Clone, Copy, Debug, PartialEq, Eq)]
pub struct Temperature {
    pub refusal: Refusal,
    pub value: i64,
}

// A rounded figure with its mark, or a refusal and zeros.
#[repr(C)]
#[derive(Clone, Copy, Debug, PartialEq, Eq)]
pub struct RoundedFigure {
    pub refusal: Refusal,
    pub value: u64,
    pub mark: u64,
}

// A temperature rounded to hundredths of a degree with its mark, or a refusal and zeros.
#[repr(C)]
#[derive(Clone, Copy, Debug, PartialEq, Eq)]
pub struct RoundedTemperature {
    pub refusal: Refusal,
    pub value: i64,
    pub mark: u64,
}

impl fmt::Display for Mark {
    fn fmt<W: fmt::Write>(&self, f: &mut fmt::Formatter<W>) -> fmt::Result {
        f.write_str(match self {
            Mark::Exact => "exact",
            Mark::Raised => "raised",
            Mark::Lowered => "lowered",
        })
    }
}

impl fmt::Display for Refused {
    fn fmt<W: fmt::Write>(&self, f: &mut fmt::Formatter<W>) -> fmt::Result {
        write!(f, "{}", Refusal::from(*self))
    }
}

impl fmt::Display for Refusal {
    fn fmt<W: fmt::Write>(&self, f: &mut fmt::Formatter<W>) -> fmt::Result {
        write!(f, "refusal {}, place {}", self.number, self.place)
    }
}

impl From<Refused> for Refusal {
    ghost from_gives = { λ refused refusal. refusal ≡ shown_refusal refused };

    fn from(refused: Refused) -> Refusal {
        Refusal {
            number: refused.reason as u64,
            place: refused.place,
        }
    }
}

impl Refusal {
    // The refusal of an answer, two zeros where it has none.
    pub fn of<T: Copy>(answer: Result<T, Refused>) -> Refusal
        ensures { result ≡ refusal_of (told answer) }
    {
        match answer {
            Ok(_) => NOT_REFUSED,
            Err(refused) => refused.into(),
        }
    }

    // What is shown of this refusal where it is one, its number above 0, else the answer that was handed in.
    pub fn unless<A: From<Refusal> + Copy>(self, answer: A) -> A
        ensures declined { 0 < self.number → A.from_gives self result }
        ensures answered { self.number ≡ 0 → result ≡ answer }
    {
        if 0 < self.number { self.into() } else { answer }
    }
}

impl From<Result<u64, Refused>> for Figure {
    ghost from_gives = { λ answer figure. figure ≡ shown_figure (told answer) };

    fn from(answer: Result<u64, Refused>) -> Figure {
        match answer {
            Ok(value) => Figure {
                refusal: NOT_REFUSED,
                value,
            },
            Err(refused) => Refusal::from(refused).into(),
        }
    }
}

impl From<Result<i64, Refused>> for Temperature {
    ghost from_gives = { λ answer temperature. temperature ≡ shown_temperature (told answer) };

    fn from(answer: Result<i64, Refused>) -> Temperature {
        match answer {
            Ok(value) => Temperature {
                refusal: NOT_REFUSED,
                value,
            },
            Err(refused) => Refusal::from(refused).into(),
        }
    }
}

impl From<Result<Rounded<u64>, Refused>> for RoundedFigure {
    ghost from_gives = { λ answer figure. figure ≡ shown_rounded (told answer) };

    fn from(answer: Result<Rounded<u64>, Refused>) -> RoundedFigure {
        match answer {
            Ok(figure) => RoundedFigure::answered(figure.value, figure.mark as u64),
            Err(refused) => Refusal::from(refused).into(),
        }
    }
}

impl From<Result<Rounded<i64>, Refused>> for RoundedTemperature {
    ghost from_gives = { λ answer temperature. temperature ≡ shown_rounded_temperature (told answer) };

    fn from(answer: Result<Rounded<i64>, Refused>) -> RoundedTemperature {
        match answer {
            Ok(temperature) => {
                RoundedTemperature::answered(temperature.value, temperature.mark as u64)
            }
            Err(refused) => Refusal::from(refused).into(),
        }
    }
}

// A refusal of any number and place, the table's or not, with zeros beside it.
impl From<Refusal> for Figure {
    ghost from_gives = { λ refusal figure. figure ≡ shown_figure (refused refusal) };

    fn from(refusal: Refusal) -> Figure {
        Figure { refusal, value: 0 }
    }
}

impl From<Refusal> for Temperature {
    ghost from_gives = { λ refusal temperature. temperature ≡ shown_temperature (refused refusal) };

    fn from(refusal: Refusal) -> Temperature {
        Temperature { refusal, value: 0 }
    }
}

impl From<Refusal> for RoundedFigure {
    ghost from_gives = { λ refusal figure. figure ≡ shown_rounded (refused refusal) };

    fn from(refusal: Refusal) -> RoundedFigure {
        RoundedFigure {
            refusal,
            value: 0,
            mark: 0,
        }
    }
}

impl From<Refusal> for RoundedTemperature {
    ghost from_gives = { λ refusal temperature. temperature ≡ shown_rounded_temperature (refused refusal) };

    fn from(refusal: Refusal) -> RoundedTemperature {
        RoundedTemperature {
            refusal,
            value: 0,
            mark: 0,
        }
    }
}

// An answer with any number as its mark.
impl RoundedFigure {
    pub fn answered(value: u64, mark: u64) -> RoundedFigure
        ensures { result ≡ record { refusal = refusal 0 0; value = value; mark = mark } }
    {
        RoundedFigure {
            refusal: NOT_REFUSED,
            value,
            mark,
        }
    }
}

impl RoundedTemperature {
    pub fn answered(value: i64, mark: u64) -> RoundedTemperature
        ensures { result ≡ record { refusal = refusal 0 0; value = value; mark = mark } }
    {
        RoundedTemperature {
            refusal: NOT_REFUSED,
            value,
            mark,
        }
    }
}

// A whole number of some width, by its value.
pub trait Whole: Copy {
    ghost value: { Self → ℤ };

    fn is_below(self, other: Self) -> bool
        ensures { result ≡ lt_z (value self) (value other) };
}

impl Whole for u64 {
    ghost value = { pos };

    fn is_below(self, other: u64) -> bool {
        self < other
    }
}

impl Whole for i64 {
    ghost value = { λ n. n };

    fn is_below(self, other: i64) -> bool {
        self < other
    }
}

// Whether a number is outside low to high.
#[tactic(auto, unfolding(crate::specs::Outside::outside))]
pub fn is_outside<T: Whole>(low: T, high: T, n: T) -> bool
    ensures { result ≡ outside (T.value low) (T.value high) (T.value n) }
{
    n.is_below(low) || high.is_below(n)
}
