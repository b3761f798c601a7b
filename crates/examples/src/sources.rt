// What the source documents print for these formulas, beside what the rules here give; docs/DECISIONS.md says why some differ.
use crate::points::{bonds_of, fuel, show_bonds};
use crate::show_fuel;
use crate::shown::{Limits, rounded_hundredths, show_answer};
use blend::FIT_TEMPERATURE;
use std::io;

// Source document 000: ethylene glycol's stoichiometric fraction, toluene's flash point.
fn show_handbook(rt: &impl Print) -> io::Result<()> {
    let fraction = oxygen::stoichiometric_fraction(fuel(2, 6, 2));
    show_answer(
        rt,
        &"000, C2H6O2, printed 7.63 %",
        fraction.map(rounded_hundredths),
    )?;
    let toluene = (fuel(7, 8, 0), bonds_of(1, 6, 8, 0, 0));
    show_bonds(rt, "000, toluene, printed 4.86", 1, toluene, 11060)
}

// Source document 003, problem 7: 30 % propane and 70 % ethane.
fn show_problem_7(rt: &impl Print) -> io::Result<()> {
    print!(rt; "003, problem 7, printed 2.08 and 12.03 %, ")?;
    show_fuel(rt, "C3H8")?;
    print!(rt; "003, problem 7, printed 2.85 and 16.71 %, ")?;
    show_fuel(rt, "C2H6")?;
    let both = blend::add_fuel(blend::empty_blend(), fuel(3, 8, 0), 30)
        .and_then(|first| blend::add_fuel(first, fuel(2, 6, 0), 70))
        .and_then(|both| blend::blend_limits_at(both, FIT_TEMPERATURE));
    show_answer(
        rt,
        &"003, problem 7, printed 2.57 and 14.97 %, both",
        both.map(Limits),
    )
}

// Source document 003, problem 8: methane at 134.00.
fn show_problem_8(rt: &impl Print) -> io::Result<()> {
    let masses = limits::mass_concentration(fuel(1, 4, 0), 13400);
    show_answer(
        rt,
        &"003, problem 8, printed 19.88 and 148.4 g/m3",
        masses.map(Limits),
    )
}

pub fn show_sources(rt: &impl Print) -> io::Result<()> {
    println!(rt; "\nsource documents")?;
    show_handbook(rt)?;
    show_problem_7(rt)?;
    show_problem_8(rt)
}
