// A run of every figure and place of document 01 and of the source documents: what it writes is compared with the file stdout.
// Questions whose figure was fitted at 25 °C are asked at that temperature by its name.
#![tactic(auto)]

use crate::shown::{Degrees, Formula, Limits, rounded_hundredths, show_answer};
use answer::{Refusal, Refused};
use blend::{Blend, FIT_TEMPERATURE};
use elements::Atoms;
use formula::read_formula;
use std::io;

mod points;
mod readings;
mod shown;
mod sources;

const TEXTS: [&str; 19] = [
    "CH3CH(OH)CH3",
    "c",
    "C10((",
    "B",
    "C0",
    "C1000",
    "()",
    "(((((((((",
    "((((((((C))))))))",
    "",
    "C)",
    "Cl",
    "CCl4",
    "C2H4Br2SiSFPN",
    "(CH3)3CSi(CH3)2Cl",
    "C200H200",
    "C201",
    "H201C201",
    "((H999)999)999",
];

// The counts that a text reads to, in Hill order.
fn show_read(rt: &impl Print, name: &str, text: &[u8]) -> io::Result<()> {
    show_answer(rt, &name, read_formula(text).map(Formula))
}

fn read_formulas(rt: &impl Print) -> io::Result<()> {
    println!(rt; "\nreading")?;
    for text in TEXTS {
        show_read(rt, text, text.as_bytes())?;
    }
    show_read(rt, "256 times H", &[b'H'; 256])?;
    show_read(rt, "257 times H", &[b'H'; 257])
}

// Writes the counts into a room, and shows the room and the answer.
fn show_written(rt: &impl Print, count: [u64; 10], room: &mut [u8]) -> io::Result<()> {
    let answer = hill::write_formula(Atoms { count }, room);
    let length = answer.unwrap_or(0);
    let refusal = Refusal::of(answer);
    let text = str::from_utf8(room).unwrap_or("");
    println!(rt; "{text}: length {length}, {refusal}")
}

fn write_formulas(rt: &impl Print) -> io::Result<()> {
    println!(rt; "\nwriting")?;
    show_written(rt, [3, 8, 1, 0, 0, 0, 0, 0, 0, 0], &mut [b'.'; 8])?;
    show_written(rt, [3, 8, 1, 0, 0, 0, 0, 0, 0, 0], &mut [b'.'; 5])?;
    show_written(rt, [3, 8, 1, 0, 0, 0, 0, 0, 0, 0], &mut [b'.'; 4])?;
    show_written(rt, [0, 1, 0, 0, 0, 0, 0, 1, 0, 0], &mut [b'.'; 3])?;
    show_written(rt, [0, 2, 4, 0, 1, 0, 0, 0, 0, 0], &mut [b'.'; 8])?;
    show_written(rt, [1; 10], &mut [b'.'; 13])?;
    show_written(rt, [200; 10], &mut [b'.'; 43])?;
    show_written(rt, [0; 10], &mut [b'.'; 4])?;
    show_written(rt, [1, 0, 0, 201, 0, 0, 0, 0, 0, 300], &mut [b'.'; 4])
}

// β in quarters and the stoichiometric fraction of a fuel.
fn show_coefficient(rt: &impl Print, text: &str, fuel: Atoms) -> io::Result<()> {
    match oxygen::oxygen_coefficient(fuel) {
        Ok(beta) => {
            print!(rt; "{text}: {beta} quarters, ")?;
            match oxygen::stoichiometric_fraction(fuel) {
                Ok(fraction) => println!(rt;
                    "stoichiometric fraction {}",
                    rounded_hundredths(fraction)
                ),
                Err(refused) => println!(rt; "{refused}"),
            }
        }
        Err(refused) => println!(rt; "{text}: {refused}"),
    }
}

fn oxygen_coefficients(rt: &impl Print) -> io::Result<()> {
    println!(rt; "\noxygen")?;
    for text in [
        "CH4", "C6H6", "C4H10S", "C3H9O4P", "CHCl3", "CCl4", "CO2", "H2", "C4H12Si", "C201", "x",
    ] {
        match read_formula(text.as_bytes()) {
            Ok(fuel) => show_coefficient(rt, text, fuel)?,
            Err(refused) => println!(rt; "{text}: {refused}")?,
        }
    }
    Ok(())
}

// A fuel's limits at the temperature of their formulas' fit.
fn show_fuel(rt: &impl Print, text: &str) -> io::Result<()> {
    let limits = read_formula(text.as_bytes()).and_then(|fuel| limits::fuel_limits_at(
        fuel,
        FIT_TEMPERATURE,
    ));
    show_answer(rt, &text, limits.map(Limits))
}

fn show_fuel_at(rt: &impl Print, text: &str, temperature: i64) -> io::Result<()> {
    let read = read_formula(text.as_bytes());
    let limits = read.and_then(|fuel| limits::fuel_limits_at(fuel, temperature));
    let masses = read.and_then(|fuel| limits::mass_concentration(fuel, temperature));
    let name = format_args!("{text} at {}", Degrees(temperature));
    show_answer(rt, &name, limits.map(Limits))?;
    show_answer(rt, &"  in g/m3", masses.map(Limits))
}

// A fuel's limits with no temperature named.
fn show_usual(rt: &impl Print, text: &str) -> io::Result<()> {
    let limits = read_formula(text.as_bytes()).and_then(limits::fuel_limits);
    let name = format_args!("{text} with no temperature named");
    show_answer(rt, &name, limits.map(Limits))
}

fn fuel_limits(rt: &impl Print) -> io::Result<()> {
    println!(rt; "\nlimits")?;
    for text in [
        "CH4", "C6H6", "C7H8", "C2H5Cl", "CO2", "CH2Cl2", "C2H6S", "NH3", "C201", "CH", "C(",
    ] {
        show_fuel(rt, text)?;
    }
    for temperature in [13400, 0, 20000, 20001, -1] {
        show_fuel_at(rt, "CH4", temperature)?;
    }
    show_fuel_at(rt, "CH3Cl", 2000)?;
    show_fuel_at(rt, "CH2O", 6966)?;
    show_usual(rt, "CH4")?;
    show_usual(rt, "C6H6")
}

// Shows whether a blend was changed, and hands it on.
fn show_blended(
    rt: &impl Print,
    name: &impl std::fmt::Display,
    given: Blend,
    answer: Result<Blend, Refused>,
) -> io::Result<Blend> {
    let refusal = Refusal::of(answer);
    println!(rt; "{name}: {refusal}")?;
    Ok(answer.unwrap_or(given))
}

fn show_added(rt: &impl Print, b: Blend, text: &str, parts: u64) -> io::Result<Blend> {
    let name = format_args!("{text} {parts}");
    show_blended(
        rt,
        &name,
        b,
        blend::add_fuel_text(b, text.as_bytes(), parts),
    )
}

fn show_joined(rt: &impl Print, b: Blend, other: Blend) -> io::Result<Blend> {
    show_blended(rt, &"joined", b, blend::join_blends(b, other))
}

fn show_blend(rt: &impl Print, b: Blend) -> io::Result<()> {
    let limits = blend::blend_limits_at(b, FIT_TEMPERATURE);
    show_answer(rt, &"limits", limits.map(Limits))
}

fn blends(rt: &impl Print) -> io::Result<()> {
    println!(rt; "\nblends")?;
    let empty = blend::empty_blend();
    show_blend(rt, empty)?;
    let some = show_added(rt, empty, "C3H8", 300000)?;
    let full = show_added(rt, some, "C2H6", 700000)?;
    show_blend(rt, full)?;
    let usual = blend::blend_limits(full);
    show_answer(rt, &"with no temperature named", usual.map(Limits))?;
    let same = show_added(rt, full, "CH4", 1)?;
    show_blend(rt, same)?;
    show_added(rt, same, "CH4", 0)?;
    show_joined(rt, full, some)?;
    let joined = show_joined(rt, some, some)?;
    show_blend(rt, joined)?;
    let hot = blend::blend_limits_at(joined, 20001);
    show_answer(rt, &"at 200.01", hot.map(Limits))?;
    let nonsense = Blend {
        total: 1,
        lower: 9020,
        upper: 2670,
    };
    show_blend(rt, nonsense)?;
    show_added(rt, nonsense, "x", 0)?;
    show_joined(rt, nonsense, nonsense)?;
    show_joined(rt, some, nonsense)?;
    Ok(())
}

fn main(rt: HostRuntime) -> io::Result<()> {
    println!(rt; "{} worked examples proved", worked::worked_examples())?;
    read_formulas(&rt)?;
    write_formulas(&rt)?;
    oxygen_coefficients(&rt)?;
    fuel_limits(&rt)?;
    blends(&rt)?;
    points::flash_points(&rt)?;
    points::curves(&rt)?;
    readings::show_readings(&rt)?;
    sources::show_sources(&rt)
}
