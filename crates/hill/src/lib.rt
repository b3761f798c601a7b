// Atom counts written in Hill order: the text is put together in a line of its own and then copied to the lent buffer.
#![tactic(auto)]

ghost use Rattle.std.specs.Prelude.{◌≡◌, [], length};
ghost use Rattle.answer.specs.Outcome.{told};
ghost use Rattle.text.specs.Writing.{length_of, shown_written, Longest};
ghost use Rattle.text.specs.Line.{appended};
ghost use Rattle.text.specs.Internal.{Appends};
ghost use Rattle.elements.specs.Elements.{symbol};
ghost use Rattle.elements.specs.Internal.{AtMost200};
ghost use Rattle.hill.specs.Hill.{hill_order, hill_item, hill_text, BySymbol};
ghost use Rattle.hill.specs.Writing.{writing, room_after};
ghost use Rattle.hill.specs.RoundTrip.{RoundTrip};

use answer::{Reason, Refused};
use arrayvec::ArrayVec;
use elements::{Atoms, Element, each, first_above, is_empty};
use text::{put, put_decimal, write_whole};

// All elements by symbol.
const BY_SYMBOL: [Element; 10] = [
    Element::Bromine,
    Element::Carbon,
    Element::Chlorine,
    Element::Fluorine,
    Element::Hydrogen,
    Element::Nitrogen,
    Element::Oxygen,
    Element::Phosphorus,
    Element::Sulfur,
    Element::Silicon,
];

// Carbon and hydrogen, then the others by symbol. Written out, since moving the two within BY_SYMBOL, by two rotations, shows the order less.
const CARBON_FIRST: [Element; 10] = [
    Element::Carbon,
    Element::Hydrogen,
    Element::Bromine,
    Element::Chlorine,
    Element::Fluorine,
    Element::Nitrogen,
    Element::Oxygen,
    Element::Phosphorus,
    Element::Sulfur,
    Element::Silicon,
];

fn hill_order(atoms: Atoms) -> [Element; 10]
    ensures { result ≡ hill_order atoms }
{
    if atoms.of(Element::Carbon) == 0 {
        BY_SYMBOL
    } else {
        CARBON_FIRST
    }
}

// Appends an element's symbol to a line: one byte or two, which need no call to be copied.
fn put_symbol(line: &mut ArrayVec<u8, 43>, e: Element)
    ensures { line.new.items ≡ appended 43 line.old.items (symbol e) }
{
    match e.symbol() {
        [only] => put(line, &[*only]),
        [first, second] => put(line, &[*first, *second]),
        other => put(line, other),
    }
}

// Appends an element with its count to a line.
fn put_item(line: &mut ArrayVec<u8, 43>, e: Element, n: u64)
    ensures { Appends 43 line.old.items (hill_item e n) line.new.items }
{
    if n == 0 {
        return;
    }
    put_symbol(line, e);
    if 1 < n {
        put_decimal(line, n);
    }
}

// Puts the Hill text of counts of at most 200 into an empty line, which is lent: one that is handed back is copied whole.
fn put_formula(line: &mut ArrayVec<u8, 43>, atoms: Atoms)
    requires few { AtMost200 atoms }
    requires empty { line.old.items ≡ [] }
    ensures { line.new.items ≡ hill_text atoms }
{
    for e in hill_order(atoms) {
        put_item(line, e, atoms.of(e));
    }
}

// Writes atom counts in Hill order at the start of out, and answers the text's length; the bytes behind it stay. Refusals 1 where all counts are 0,
// 2 with the lowest element above 200, and 17 where out is too short; they leave all of out as it was.
#[tactic(auto, unfolding(crate::specs::Writing::writing, crate::specs::Writing::room_after), using(crate::proofs::RoundTrips::round_trip))]
pub fn write_formula(atoms: Atoms, out: &mut [u8]) -> Result<usize, Refused>
    ensures value { told result ≡ length_of (writing atoms (length out.old)) }
    ensures room { out.new ≡ room_after atoms out.old }
    ensures round_trip { RoundTrip }
    ensures longest { Longest 43 out.old (shown_written (told result)) }
    ensures by_symbol { BySymbol }
{
    if is_empty(atoms) {
        return Err(Reason::NoFormula.at(0));
    }
    if let Some(over) = first_above(each(200), atoms) {
        return Err(Reason::CountTooLarge.at(over));
    }
    let mut line = ArrayVec::new();
    put_formula(&mut line, atoms);
    write_whole(out, &line)
}
