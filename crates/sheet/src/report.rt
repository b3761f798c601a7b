// A sheet's answer as text, put together in a line of its own and then copied to the lent room.
ghost use Rattle.std.specs.Prelude.{◌≡◌, [], length};
ghost use Rattle.answer.specs.Outcome.{told};
ghost use Rattle.text.specs.Writing.{Longest, length_of, shown_written};
ghost use Rattle.text.specs.Internal.{Appends};
ghost use Rattle.sheet.specs.Answer.{percent, limits_line, refusal_line, answer_line, answer_text, answer_placed, answer_room};

use answer::{Refusal, Refused};
use arrayvec::ArrayVec;
use blend::Limits;
use rounding::divide;
use text::{put, put_decimal, write_whole};

// Appends hundredths of a percent as percent with two decimals. By hand, since the library prints a number by dividing, and nothing divides but `rounding`.
fn put_percent(line: &mut ArrayVec<u8, 76>, n: u64)
    ensures { Appends 76 line.old.items (percent n) line.new.items }
{
    let percents = divide(n, 100);
    let tenths = divide(percents.remainder, 10);
    put_decimal(line, percents.quotient);
    put(line, b".");
    put_decimal(line, tenths.quotient);
    put_decimal(line, tenths.remainder);
}

fn put_limits(line: &mut ArrayVec<u8, 76>, lower: u64, upper: u64)
    ensures { Appends 76 line.old.items (limits_line lower upper) line.new.items }
{
    put(line, b"0,0,");
    put_percent(line, lower);
    put(line, b",");
    put_percent(line, upper);
}

fn put_refusal(line: &mut ArrayVec<u8, 76>, declined: Refusal)
    ensures { Appends 76 line.old.items (refusal_line declined) line.new.items }
{
    put_decimal(line, declined.number);
    put(line, b",");
    put_decimal(line, declined.place);
    put(line, b",,");
}

// The number of a refusal, and not a Result, since C hands in any numbers: 0 is none.
fn put_answer(line: &mut ArrayVec<u8, 76>, answer: Limits)
    ensures { Appends 76 line.old.items (answer_line answer) line.new.items }
{
    if answer.refusal.number == 0 {
        put_limits(line, answer.lower, answer.upper);
    } else {
        put_refusal(line, answer.refusal);
    }
}

// Puts an answer's text into an empty line, which is lent: one that is handed back is copied whole.
fn put_report(line: &mut ArrayVec<u8, 76>, answer: Limits)
    requires { line.old.items ≡ [] }
    ensures { line.new.items ≡ answer_text answer }
{
    put(line, b"answer,record,lower,upper\r\n");
    put_answer(line, answer);
    put(line, b"\r\n");
}

// Writes an answer, as C hands it in, as text at the start of out, and answers its length; the bytes behind it stay. Refusal 17 where out is too short, which
// leaves all of out as it was.
pub fn write_answer(answer: Limits, out: &mut [u8]) -> Result<usize, Refused>
    ensures value { told result ≡ length_of (answer_placed answer (length out.old)) }
    ensures room { out.new ≡ answer_room answer out.old }
    ensures longest { Longest 76 out.old (shown_written (told result)) }
{
    let mut line = ArrayVec::new();
    put_report(&mut line, answer);
    write_whole(out, &line)
}
