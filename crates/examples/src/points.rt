// Flash and fire points, from bonds, from a class and on a curve, and lower temperature limits.
use crate::shown::{Degrees, rounded_degrees, show_answer};
use bonds::Bonds;
use elements::Atoms;
use std::io;

// Carbon and hydrogen, and oxygen.
pub fn fuel(c: u64, h: u64, o: u64) -> Atoms {
    Atoms {
        count: [c, h, o, 0, 0, 0, 0, 0, 0, 0],
    }
}

// C–C, C…C, C–H, C–O and O–H bonds.
pub fn bonds_of(single: u64, ring: u64, c_h: u64, c_o: u64, o_h: u64) -> Bonds {
    let mut count = [0u64; 22];
    count[0] = single;
    count[1] = ring;
    count[3] = c_h;
    count[4] = c_o;
    count[17] = o_h;
    Bonds { count }
}

pub fn show_bonds(
    rt: &impl Print,
    name: &str,
    method: u64,
    (atoms, bonds): (Atoms, Bonds),
    boiling: i64,
) -> io::Result<()> {
    let point = flash::flash_by_bonds(method, atoms, bonds, boiling);
    show_answer(rt, &name, point.map(rounded_degrees))
}

fn show_class(rt: &impl Print, name: &str, class: u64, boiling: i64) -> io::Result<()> {
    let point = flash::flash_by_class(class, boiling);
    show_answer(rt, &name, point.map(rounded_degrees))
}

pub fn flash_points(rt: &impl Print) -> io::Result<()> {
    println!(rt; "\nflash and fire points")?;
    let ethanol = (fuel(2, 6, 1), bonds_of(1, 0, 5, 1, 1));
    show_bonds(rt, "ethanol, closed cup", 1, ethanol, 7840)?;
    show_bonds(rt, "ethanol, open cup", 2, ethanol, 7840)?;
    show_bonds(rt, "ethanol, fire point", 3, ethanol, 7840)?;
    show_class(rt, "ethanol, alcohols", 2, 7840)?;
    let benzene = (fuel(6, 6, 0), bonds_of(0, 6, 6, 0, 0));
    show_bonds(rt, "benzene at 80.10", 1, benzene, 8010)?;
    show_bonds(rt, "benzene at 80.05", 1, benzene, 8005)?;
    let toluene = (fuel(7, 8, 0), bonds_of(1, 6, 8, 0, 0));
    show_bonds(rt, "toluene", 1, toluene, 11060)?;
    show_bonds(rt, "method 4", 4, ethanol, 7840)?;
    let many = (fuel(2, 6, 1), bonds_of(1, 0, 201, 1, 1));
    show_bonds(rt, "201 C-H bonds", 1, many, 7840)?;
    let other = (fuel(7, 8, 0), bonds_of(0, 6, 6, 0, 0));
    show_bonds(rt, "bonds of another", 1, other, 7840)?;
    show_bonds(rt, "boiling above 600.00", 1, ethanol, 60001)?;
    show_class(rt, "alkanes at 5.00", 1, 500)?;
    show_class(rt, "alkanes at 0.00", 1, 0)?;
    show_class(rt, "class 11", 11, 7840)
}

const TEMPERATURES: [i64; 3] = [0, 1000, 2000];

const PRESSURES: [u64; 3] = [1000, 2000, 4000];

fn show_pressure(rt: &impl Print, temperature: i64) -> io::Result<()> {
    let pressure = curve::pressure_at(&TEMPERATURES, &PRESSURES, temperature);
    let name = format_args!("pressure at {}", Degrees(temperature));
    show_answer(rt, &name, pressure)
}

fn show_lower(rt: &impl Print, name: &str, fuel: Atoms) -> io::Result<()> {
    let limit = ignition::lower_temperature_limit(fuel, &TEMPERATURES, &PRESSURES);
    show_answer(rt, &name, limit.map(Degrees))
}

// C6H6 by formula (35).
fn show_by_curve(
    rt: &impl Print,
    name: &str,
    (method, diffusion): (u64, u64),
    (temperatures, pressures): (&[i64], &[u64]),
) -> io::Result<()> {
    let benzene = fuel(6, 6, 0);
    let point = ignition::flash_by_curve(method, benzene, diffusion, temperatures, pressures);
    show_answer(rt, &name, point.map(Degrees))
}

// The pressures, the lower temperature limits, and C6H6 by formula (35).
pub fn curves(rt: &impl Print) -> io::Result<()> {
    println!(rt; "\ncurves")?;
    for temperature in [0, 1443, 1444, 2000] {
        show_pressure(rt, temperature)?;
    }
    show_lower(rt, "C2H6", fuel(2, 6, 0))?;
    show_lower(rt, "C3H8", fuel(3, 8, 0))?;
    show_lower(rt, "CH4", fuel(1, 4, 0))?;
    show_lower(rt, "C40H82", fuel(40, 82, 0))?;
    show_by_curve(rt, "C6H6", (1, 800), (&TEMPERATURES, &PRESSURES))?;
    show_by_curve(rt, "method 0", (0, 800), (&TEMPERATURES, &PRESSURES))?;
    show_by_curve(rt, "no diffusion", (1, 0), (&TEMPERATURES, &PRESSURES))?;
    let level: (&[i64], &[u64]) = (&[0, 1000, 1000], &PRESSURES);
    show_by_curve(rt, "not above the one before", (1, 800), level)?;
    let short: (&[i64], &[u64]) = (&TEMPERATURES, &[1000, 2000]);
    show_by_curve(rt, "unequal lengths", (1, 800), short)
}
