// Flash and fire points from bonds, formula (33), and from a class, formula (34).
#![tactic(auto)]

ghost use Rattle.std.specs.Prelude.{◌≡◌, ◌≤◌, pos, nat_abs, ◌*ℤ◌, unwrap_or, ◌+◌, ◌^◌};
ghost use Rattle.answer.specs.Methods.{method_number};
ghost use Rattle.answer.specs.Outcome.{answered, refuse, told};
ghost use Rattle.answer.specs.Numbers.{boiling_point_outside};
ghost use Rattle.flash.specs.Tables.{linear_of, methods, classes};
ghost use Rattle.flash.specs.Points.{row, boiling_outside, no_coefficient_at, line_terms, sum_from, by_bonds, by_class};
ghost use Rattle.flash.specs.Internal.{class_number, Read, FewBonds, column, bond_terms};

use answer::{PointMethod, Reason, Refused, Rounded, is_outside};
use bonds::{Bonds, first_above_200, hydrogen_is_unbalanced};
use elements::Atoms;
use rounding::round_div_signed;

// The classes, by the numbers that they are asked for with.
#[derive(Clone, Copy, Debug, PartialEq, Eq)]
enum Class {
    Alkanes = 1,
    Alcohols = 2,
    Alkylanilines = 3,
    CarboxylicAcids = 4,
    Alkylphenols = 5,
    AromaticHydrocarbons = 6,
    Aldehydes = 7,
    Bromoalkanes = 8,
    Ketones = 9,
    Chloroalkanes = 10,
}

// A straight line of the boiling point, in thousandths.
#[derive(Clone, Copy)]
struct Linear {
    constant: i32,
    slope: i32,
}

// The bonds' coefficients by method, in thousandths of a degree. `None` is a blank of the table.
const CLOSED_CUP: [Option<i32>; 22] = [
    Some(-2030), // 1 C–C
    Some(-280), // 2 C…C
    Some(1720), // 3 C=C
    Some(1105), // 4 C–H
    Some(2470), // 5 C–O
    Some(11660), // 6 C=O
    Some(14150), // 7 C–N
    Some(12130), // 8 C≡N
    Some(2090), // 9 C–S
    Some(-11910), // 10 C=S
    Some(3330), // 11 C–F
    Some(15110), // 12 C–Cl
    Some(19400), // 13 C–Br
    Some(-4840), // 14 C–Si
    Some(11000), // 15 Si–H
    Some(10070), // 16 Si–Cl
    Some(5830), // 17 N–H
    Some(23900), // 18 O–H
    Some(5640), // 19 S–H
    Some(3270), // 20 P–O
    Some(9640), // 21 P=O
    None, // 22 SiCl3
];

const OPEN_CUP: [Option<i32>; 22] = [
    Some(3630), // 1 C–C
    Some(6480), // 2 C…C
    Some(-4180), // 3 C=C
    Some(350), // 4 C–H
    Some(4620), // 5 C–O
    Some(25360), // 6 C=O
    Some(-7030), // 7 C–N
    None, // 8 C≡N
    Some(14860), // 9 C–S
    None, // 10 C=S
    None, // 11 C–F
    None, // 12 C–Cl
    None, // 13 C–Br
    None, // 14 C–Si
    Some(-4580), // 15 Si–H
    None, // 16 Si–Cl
    Some(18150), // 17 N–H
    Some(44290), // 18 O–H
    Some(10750), // 19 S–H
    Some(22230), // 20 P–O
    Some(-9860), // 21 P=O
    Some(50490), // 22 SiCl3
];

const FIRE_POINT: [Option<i32>; 22] = [
    Some(27), // 1 C–C
    Some(-2069), // 2 C…C
    Some(-8980), // 3 C=C
    Some(-2118), // 4 C–H
    Some(-111), // 5 C–O
    Some(-826), // 6 C=O
    Some(-5876), // 7 C–N
    None, // 8 C≡N
    None, // 9 C–S
    None, // 10 C=S
    None, // 11 C–F
    None, // 12 C–Cl
    None, // 13 C–Br
    None, // 14 C–Si
    None, // 15 Si–H
    None, // 16 Si–Cl
    Some(-261), // 17 N–H
    Some(8216), // 18 O–H
    None, // 19 S–H
    None, // 20 P–O
    None, // 21 P=O
    None, // 22 SiCl3
];

impl TryFrom<u64> for Class {
    type Error = Refused;

    ghost try_from_gives = { Read };

    fn try_from(number: u64) -> Result<Class, Refused> {
        match number {
            1 => Ok(Class::Alkanes),
            2 => Ok(Class::Alcohols),
            3 => Ok(Class::Alkylanilines),
            4 => Ok(Class::CarboxylicAcids),
            5 => Ok(Class::Alkylphenols),
            6 => Ok(Class::AromaticHydrocarbons),
            7 => Ok(Class::Aldehydes),
            8 => Ok(Class::Bromoalkanes),
            9 => Ok(Class::Ketones),
            10 => Ok(Class::Chloroalkanes),
            _ => Err(Reason::UnknownMethod.at(0)),
        }
    }
}

impl Linear {
    fn new(constant: i32, slope: i32) -> Linear
        ensures { result ≡ linear_of constant slope }
    {
        Linear { constant, slope }
    }

    // A method's line.
    #[tactic(auto, unfolding(crate::specs::Tables::methods))]
    fn of_method(method: PointMethod) -> Linear
        ensures { result ≡ row methods (method_number method) }
    {
        match method {
            PointMethod::ClosedCup => Linear::new(-73140, 659),
            PointMethod::OpenCup => Linear::new(-73000, 409),
            PointMethod::FirePoint => Linear::new(-47780, 882),
        }
    }

    // A class's line.
    #[tactic(auto, unfolding(crate::specs::Tables::classes))]
    fn of_class(class: Class) -> Linear
        ensures { result ≡ row classes (class_number class) }
    {
        match class {
            Class::Alkanes => Linear::new(-73220, 693),
            Class::Alcohols => Linear::new(-41690, 652),
            Class::Alkylanilines => Linear::new(-21940, 533),
            Class::CarboxylicAcids => Linear::new(-43570, 708),
            Class::Alkylphenols => Linear::new(-38420, 623),
            Class::AromaticHydrocarbons => Linear::new(-67830, 665),
            Class::Aldehydes => Linear::new(-74760, 813),
            Class::Bromoalkanes => Linear::new(-49560, 665),
            Class::Ketones => Linear::new(-52690, 643),
            Class::Chloroalkanes => Linear::new(-55700, 631),
        }
    }

    // What the line says at a boiling point, in hundred-thousandths of a degree.
    fn at(self, boiling: i32) -> i64
        ensures value { result ≡ sum_from (pos 0) (line_terms self boiling) }
        ensures small { nat_abs result ≤ 2 ^ 38 + 2 ^ 62 }
    {
        100 * i64::from(self.constant) + i64::from(self.slope) * i64::from(boiling)
    }
}

// A boiling point from −200.00 to 600.00.
fn boiling_point(boiling: i64) -> Result<i32, Refused>
    ensures { told result ≡ refuse boiling_point_outside 0 (boiling_outside boiling) (answered boiling) }
{
    if is_outside(-20000, 60000, boiling) {
        return Err(Reason::BoilingPointOutside.at(0));
    }
    Ok(boiling as i32)
}

// A method's coefficients.
#[tactic(auto, unfolding(crate::specs::Tables::coefficients))]
fn column_of(method: PointMethod) -> [Option<i32>; 22]
    ensures { result ≡ column (method_number method) }
{
    match method {
        PointMethod::ClosedCup => CLOSED_CUP,
        PointMethod::OpenCup => OPEN_CUP,
        PointMethod::FirePoint => FIRE_POINT,
    }
}

// The lowest kind with bonds and no coefficient.
fn first_missing(method: PointMethod, bonds: Bonds) -> Option<u64>
    ensures { result ≡ no_coefficient_at (method_number method) bonds }
{
    bonds
        .count
        .iter()
        .zip(column_of(method).iter())
        .position(|(n, coefficient)| 0 < *n && coefficient.is_none())
        .map(|i| i as u64 + 1)
}

// What the bonds of a kind add, in hundred-thousandths of a degree.
fn bond_term(n: u64, coefficient: Option<i32>) -> i64
    requires { n ≤ 200 }
    ensures value { result ≡ pos 100 *ℤ unwrap_or coefficient (pos 0) *ℤ pos n }
    ensures small { nat_abs result ≤ 2 ^ 46 }
{
    100 * i64::from(coefficient.unwrap_or(0)) * n as i64
}

// A sum with what the bonds add.
fn bond_sum(start: i64, method: PointMethod, bonds: Bonds) -> i64
    requires start { nat_abs start ≤ 2 ^ 38 + 2 ^ 62 }
    requires few { FewBonds bonds }
    ensures { result ≡ sum_from start (bond_terms (method_number method) bonds 0) }
{
    let mut sum = start;
    for (n, coefficient) in bonds.count.iter().zip(column_of(method).iter()) {
        sum += bond_term(*n, *coefficient);
    }
    sum
}

// The flash or fire point from bonds: methods 1 closed cup, 2 open cup, 3 fire point; C hands in any number. Refusals 16, 2, 5, 6, 7.
pub fn flash_by_bonds(
    method: u64,
    atoms: Atoms,
    bonds: Bonds,
    boiling: i64,
) -> Result<Rounded<i64>, Refused>
    ensures { told result ≡ by_bonds method atoms bonds boiling }
{
    let method = PointMethod::try_from(method)?;
    if let Some(over) = first_above_200(atoms, bonds) {
        return Err(Reason::CountTooLarge.at(over));
    }
    if hydrogen_is_unbalanced(atoms, bonds) {
        return Err(Reason::HydrogenDiffers.at(0));
    }
    if let Some(kind) = first_missing(method, bonds) {
        return Err(Reason::NoCoefficient.at(kind));
    }
    let start = Linear::of_method(method).at(boiling_point(boiling)?);
    Ok(round_div_signed(bond_sum(start, method, bonds), 1000))
}

// The flash point from a class, 1 to 10; C hands in any number. Refusals 16, 7.
pub fn flash_by_class(class: u64, boiling: i64) -> Result<Rounded<i64>, Refused>
    ensures { told result ≡ by_class class boiling }
{
    let class = Class::try_from(class)?;
    let sum = Linear::of_class(class).at(boiling_point(boiling)?);
    Ok(round_div_signed(sum, 1000))
}
