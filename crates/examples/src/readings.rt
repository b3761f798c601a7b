// The analyser's readings at their edges, and its methods.
use crate::shown::{rounded_parts, show_answer};
use analyser::{Method, Reading, parts_of};
use std::io;

// A method that takes every percentage, one that takes every count of parts per million, and one from 2.5 % to 20 %.
const PERCENT: Method = Method {
    limit: 0.0,
    ceiling: 100.0,
};

const PPM: Method = Method {
    limit: 0.0,
    ceiling: 1000000.0,
};

const LIMITED: Method = Method {
    limit: 2.5,
    ceiling: 20.0,
};

fn not_a_number() -> f64 {
    0.0 / 0.0
}

fn infinity() -> f64 {
    1.0 / 0.0
}

fn show_parts(rt: &impl Print, name: &str, method: Method, reading: Reading) -> io::Result<()> {
    show_answer(rt, &name, parts_of(method, reading).map(rounded_parts))
}

fn percentages(rt: &impl Print) -> io::Result<()> {
    println!(rt; "\nanalyser readings")?;
    for (name, reading) in [
        ("4.54 %", 4.54),
        ("100 %", 100.0),
        ("next double above 100 %", 100.00000000000001),
        ("0.00005 %", 0.00005),
        ("0.00035 %", 0.00035),
        ("99.99995 %", 99.99995),
        ("least subnormal", 5e-324),
        ("minus zero", -0.0),
        ("minus the least subnormal", -5e-324),
        ("not a number", not_a_number()),
        ("infinity", infinity()),
        ("minus infinity", -infinity()),
        ("zero", 0.0),
    ] {
        show_parts(rt, name, PERCENT, Reading::Percent(reading))?;
    }
    Ok(())
}

fn counts(rt: &impl Print) -> io::Result<()> {
    for (name, reading) in [
        ("2.5 ppm", 2.5),
        ("0.5 ppm", 0.5),
        ("0.49999999999999994 ppm", 0.49999999999999994),
        ("1e-300 ppm", 1e-300),
        ("1000000 ppm", 1000000.0),
    ] {
        show_parts(rt, name, PPM, Reading::Ppm(reading))?;
    }
    let from_0_4 = Method {
        limit: 0.4,
        ceiling: 1000000.0,
    };
    show_parts(rt, "0.4 ppm at the limit", from_0_4, Reading::Ppm(0.4))
}

fn limited(rt: &impl Print) -> io::Result<()> {
    for (name, reading) in [
        ("at the limit", 2.5),
        ("just below the limit", 2.4999999999999996),
        ("negative, below the limit", -1.0),
        ("at the ceiling", 20.0),
        ("just above the ceiling", 20.000000000000004),
    ] {
        show_parts(rt, name, LIMITED, Reading::Percent(reading))?;
    }
    Ok(())
}

// 2 ppm by methods that are good and bad, and an overload.
fn methods(rt: &impl Print) -> io::Result<()> {
    println!(rt; "\nanalyser methods")?;
    for (name, limit, ceiling) in [
        ("limit and ceiling at the reading", 2.0, 2.0),
        ("minus zero as limit", -0.0, 2.0),
        ("minus zero as ceiling", 0.0, -0.0),
        ("limit above the ceiling", 3.0, 2.0),
        ("negative limit", -1.0, 2.0),
        ("ceiling above 1000000 ppm", 0.0, 1000001.0),
        ("limit not a number", not_a_number(), 2.0),
        ("infinite ceiling", 0.0, infinity()),
    ] {
        show_parts(rt, name, Method { limit, ceiling }, Reading::Ppm(2.0))?;
    }
    show_parts(rt, "ppm for percent", PPM, Reading::Percent(2.0))?;
    show_parts(rt, "overload", PPM, Reading::Overload)?;
    let crossed = Method {
        limit: 3.0,
        ceiling: 2.0,
    };
    show_parts(
        rt,
        "overload, limit above the ceiling",
        crossed,
        Reading::Overload,
    )
}

// The readings and the methods.
pub fn show_readings(rt: &impl Print) -> io::Result<()> {
    percentages(rt)?;
    counts(rt)?;
    limited(rt)?;
    methods(rt)
}
