// What the program `mixture` does with one open sheet: it reads the sheet and writes the answer.
#![tactic(auto)]

ghost use Rattle.std.specs.Prelude.{◌≡◌, ◌≤◌, ◌<◌, length, take, IfSome, OnOk};
ghost use Rattle.std.specs.Option.{option_copied};
ghost use Rattle.std.specs.Io.KnownBytes.{Consumes, IsAtEnd, Appends};
ghost use Rattle.answer.specs.Outcome.{told};
ghost use Rattle.text.specs.Writing.{Longest, length_of, shown_written};
ghost use Rattle.sheet.specs.Answer.{answer_text, answer_placed, answer_room};
ghost use Rattle.mixture_run.specs.Input.{input_answer, shown_answer, WritesAnswer};

use answer::{Reason, Refused, Rounded};
use blend::LimitPair;
use std::io;
use std::io::{Error, ErrorKind, Read, Write};

// Reads until out is full, the input ends or a read fails, and answers how many bytes were read; none where a read fails. A read that a signal interrupts is
// tried again. A loop has to end, so the reads are counted up to a number that no run comes to.
fn read_input<R: Read>(from: &mut R, out: &mut [u8]) -> Option<usize>
    ensures within { IfSome result (λ n. n ≤ length out.new) }
    ensures bytes { IfSome result (λ n. Consumes (R.remaining from.old) (R.remaining from.new) (take n out.new)) }
    ensures end { IfSome result (λ n. n < length out.new → IsAtEnd (R.remaining from.new)) }
{
    let mut done = 0;
    for _ in 0..u64::MAX {
        if done == out.len() {
            break;
        }
        match from.read(&mut out[done..]) {
            Ok(0) => return Some(done),
            Ok(got) => done += got,
            Err(error) => {
                if error.kind() != ErrorKind::Interrupted {
                    return None;
                }
            }
        }
    }
    if done < out.len() { None } else { Some(done) }
}

// The answer to an input. Refusal 15 with place 0 where it could not be read to its end.
fn input_answer(input: Option<&[u8]>) -> Result<LimitPair<Rounded<u64>>, Refused>
    ensures { told result ≡ input_answer (option_copied input.entry) }
{
    sheet::sheet_answer(input.ok_or(Reason::BadSheet.at(0))?)
}

// What the program writes: the text of the answer to what was read, none where a read failed, at the start of out, as sheet::write_answer does.
pub fn respond(input: Option<&[u8]>, out: &mut [u8]) -> Result<usize, Refused>
    ensures value { told result ≡ length_of (answer_placed (shown_answer (option_copied input.entry)) (length out.old)) }
    ensures room { out.new ≡ answer_room (shown_answer (option_copied input.entry)) out.old }
    ensures longest { Longest 76 out.old (shown_written (told result)) }
{
    sheet::write_answer(input_answer(input).into(), out)
}

// Writes the answer to an input. The room holds every answer's text.
fn write_answer<W: Write>(input: Option<&[u8]>, to: &mut W) -> io::Result<()>
    ensures { OnOk result (Appends (W.contents to.old) (W.contents to.new) (answer_text (shown_answer (option_copied input.entry)))) }
{
    let mut out = [0u8; 76];
    let end = respond(input, &mut out).unwrap_or(0);
    to.write_all(&out[..end])
}

// One byte more than a sheet may have is read, so that the answer can tell a longer one. An error is that of a write.
pub fn run<R: Read, W: Write>(from: &mut R, to: &mut W) -> io::Result<()>
    ensures { OnOk result (WritesAnswer (R.remaining from.old) (W.contents to.old) (W.contents to.new)) }
{
    let mut room = [0u8; 65537];
    match read_input(from, &mut room) {
        Some(length) => write_answer(Some(&room[..length]), to),
        None => write_answer(None, to),
    }
}

// Says on standard error why something failed: what it was, and the system's words without the number that the library puts behind them. They are put
// together in a room of fixed size, as nothing uses a heap.
pub fn complain(rt: &impl Eprint, of: &str, error: Error) {
    let mut room = [0u8; 256];
    let mut rest: &mut [u8] = &mut room;
    let _ = write!(rest, "{error}");
    let text = str::from_utf8(&room).unwrap_or("");
    let reason = match text.split_once(" (os error ") {
        Some((words, _)) => words,
        None => text.trim_end_matches('\0'),
    };
    let _ = eprintln!(rt; "{of}: {reason}");
}
