// Runs the work of `mixture` on each file that an argument names, and writes the name before its answer.
#![tactic(auto)]

use std::env::FillError;
use std::fs::File;
use std::io;
use std::io::Read;
use std::rt::{Env, Files};

fn show_answer(rt: &impl Print, path: &str, file: &mut impl Read) -> io::Result<()> {
    rt.println(path)?;
    mixture_run::run(file, &mut io::writer(rt))
}

fn run_file(rt: &(impl Files + Print + Eprint), path: &str) {
    match File::open(rt, path) {
        Ok(mut file) => {
            if let Err(error) = show_answer(rt, path, &mut file) {
                mixture_run::complain(rt, "mixture: standard output", error);
            }
        }
        Err(error) => mixture_run::complain(rt, path, error),
    }
}

// Whether there is an argument i. std writes it into a lent room, as nothing uses a heap. A name that is no text, or longer than the system takes, names no
// file.
fn run_argument(rt: &(impl Env + Files + Print + Eprint), i: usize) -> bool {
    let mut room = [0u8; 4096];
    let length = match rt.arg(i, &mut room) {
        Ok(length) => length,
        Err(FillError::NotPresent) => return false,
        Err(FillError::TooLong) => 0,
    };
    run_file(rt, str::from_utf8(&room[..length]).unwrap_or(""));
    true
}

fn main(rt: HostRuntime) {
    for i in 1..usize::MAX {
        if !run_argument(&rt, i) {
            return;
        }
    }
}
