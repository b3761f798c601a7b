// Molecular formulas: reading a formula text.
// A formula reader calls an item reader, which calls the formula reader on a bracket, one level less deep.
#![tactic(auto)]

ghost use Rattle.std.specs.Prelude.{◌≡◌, [], ◌∷◌, ℕ, ◌+◌, ◌*◌, ◌≤◌, length};
ghost use Rattle.answer.specs.Outcome.{told};
ghost use Rattle.elements.specs.Elements.{Totals, nothing, one, times, atoms as atoms_of};
ghost use Rattle.formula.specs.Reader.{symbol_of, symbol_at, multiple_of, multiple_at, ends, read_element, closing, read_item, read_items};
ghost use Rattle.formula.specs.Reading.{shown_formula, at_most200, reading, OnlyOutcome};
ghost use Rattle.formula.specs.Internal.{begun, digit_value, cap, Counted, Adds, Says, Closes};

use answer::{NOT_REFUSED, Reason, Refusal, Refused};
use elements::{Atoms, Element, each, first_above, number_of};
use text::{byte_at, is_digit_from};

// A formula that was read, or a refusal and zeros: as C is shown it.
#[repr(C)]
#[derive(Clone, Copy, Debug, PartialEq, Eq)]
pub struct FormulaRead {
    pub refusal: Refusal,
    pub atoms: Atoms,
}

impl From<Result<Atoms, Refused>> for FormulaRead {
    ghost from_gives = { λ read f. f ≡ shown_formula (told read) };

    fn from(read: Result<Atoms, Refused>) -> FormulaRead {
        match read {
            Ok(atoms) => FormulaRead {
                refusal: NOT_REFUSED,
                atoms,
            },
            Err(refused) => FormulaRead {
                refusal: refused.into(),
                atoms: each(0),
            },
        }
    }
}

// What two bytes begin: the symbol of an element, half a symbol, or nothing.
#[derive(Clone, Copy)]
enum Symbol {
    Named(Element),
    Half,
    Absent,
}

// An optional count, as the definition `multiple` has it: its value, 1 where none is written, and the number of its digits.
#[derive(Clone, Copy)]
struct Multiple {
    value: u64,
    size: usize,
}

#[tactic(auto, unfolding(crate::specs::Reader::symbol_of))]
fn symbol_of(b: u8, c: u8) -> Symbol
    ensures { result ≡ symbol_of b c }
{
    match (b, c) {
        (b'C', b'l') => Symbol::Named(Element::Chlorine),
        (b'B', b'r') => Symbol::Named(Element::Bromine),
        (b'S', b'i') => Symbol::Named(Element::Silicon),
        (b'C', _) => Symbol::Named(Element::Carbon),
        (b'H', _) => Symbol::Named(Element::Hydrogen),
        (b'O', _) => Symbol::Named(Element::Oxygen),
        (b'N', _) => Symbol::Named(Element::Nitrogen),
        (b'S', _) => Symbol::Named(Element::Sulfur),
        (b'P', _) => Symbol::Named(Element::Phosphorus),
        (b'F', _) => Symbol::Named(Element::Fluorine),
        (b'B', _) => Symbol::Half,
        _ => Symbol::Absent,
    }
}

// The value of the byte b, where it is a digit that is not below `low`.
#[tactic(auto, unfolding(text::specs::Decimal::digit_from))]
fn digit(low: u8, b: u8) -> Option<u8>
    ensures { result ≡ digit_value low b }
{
    if is_digit_from(low, b) {
        Some(b - b'0')
    } else {
        None
    }
}

// The count that stands in the three bytes a, b, c.
#[tactic(auto, unfolding(crate::specs::Reader::multiple_of))]
fn multiple_of(a: u8, b: u8, c: u8) -> Multiple
    ensures { result ≡ multiple_of a b c }
{
    let Some(x) = digit(1, a) else {
        return Multiple { value: 1, size: 0 };
    };
    let Some(y) = digit(0, b) else {
        return Multiple {
            value: x as u64,
            size: 1,
        };
    };
    let tens = x as u64 * 10 + y as u64;
    match digit(0, c) {
        Some(z) => Multiple {
            value: tens * 10 + z as u64,
            size: 3,
        },
        None => Multiple {
            value: tens,
            size: 2,
        },
    }
}

// The symbol at the beginning of a text.
#[tactic(auto, using(crate::proofs::Heads::begun_within))]
fn symbol_at(t: &[u8]) -> Symbol
    ensures { (symbol_at t.now ≡ result) × (begun result ≤ length t.now) }
{
    symbol_of(byte_at(t, 0), byte_at(t, 1))
}

// The count at the beginning of a text.
#[tactic(auto, using(crate::proofs::Heads::size_within))]
fn multiple_at(t: &[u8]) -> Multiple
    ensures { (result ≡ multiple_at t.now) × (result.size ≤ length t.now) }
{
    multiple_of(byte_at(t, 0), byte_at(t, 1), byte_at(t, 2))
}

// a + b n, and 201 for all from 201 up.
fn capped_sum(a: u64, b: u64, n: u64) -> u64
    ensures { result ≡ cap (a + b * n) }
{
    a.saturating_add(b.saturating_mul(n)).min(201)
}

// Atom counts as the reader holds them, indexed by element number less one: all from 201 up are 201. Sharing methods with `Atoms`, whose counts are exact,
// would be no plainer.
#[derive(Clone, Copy)]
struct Tally {
    count: [u64; 10],
}

impl Tally {
    // No atoms.
    fn new() -> Tally
        ensures { Counted result nothing }
    {
        Tally { count: [0; 10] }
    }

    // Adds n atoms of an element.
    fn add_element(&mut self, e: Element, n: u64)
        ensures { Adds self.old (times (one e) n) self.new }
    {
        let i = number_of(e) as usize - 1;
        self.count[i] = capped_sum(self.count[i], 1, n);
    }

    // Adds n times the group. (By the index of both, since `zip` of what is changed and what is read is no plainer.)
    fn add_group(&mut self, group: Tally, n: u64)
        ensures { (m : Totals) → Counted group m → Adds self.old (times m n) self.new }
    {
        for (i, total) in self.count.iter_mut().enumerate() {
            *total = capped_sum(*total, group.count[i], n);
        }
    }

    // The atom counts, unless one exceeds 200.
    fn checked(self) -> Result<Atoms, Refused>
        ensures { (m : Totals) → Counted self m → told result ≡ at_most200 (atoms_of m) }
    {
        let Tally { count } = self;
        let atoms = Atoms { count };
        if let Some(over) = first_above(each(200), atoms) {
            return Err(Reason::CountTooLarge.at(over));
        }
        Ok(atoms)
    }
}

// The text ends, or a group does.
fn ends(t: &[u8]) -> bool
    ensures { result ≡ ends t.now }
{
    matches!(t, [] | [b')', ..])
}

// What is left of a text behind its beginning that was read, else what is left where reading is stuck.
type Rest<'a> = Result<&'a [u8], &'a [u8]>;

// Reads an element with its count, and adds it to the tally.
fn element<'a>(t: &'a [u8], tally: &mut Tally) -> Rest<'a>
    ensures { Says t.now tally.old result tally.new (read_element t.now) }
{
    let e = match symbol_at(t) {
        Symbol::Named(e) => e,
        Symbol::Half => return Err(&t[1..]),
        Symbol::Absent => return Err(t),
    };
    let behind = &t[e.symbol().len()..];
    let n = multiple_at(behind);
    tally.add_element(e, n.value);
    Ok(&behind[n.size..])
}

// Reads what stands behind the formula of a group, its bracket and its count, and adds the group to the tally.
fn closed<'a>(t: &'a [u8], group: Tally, tally: &mut Tally) -> Rest<'a>
    ensures { Closes t.now group tally.old result tally.new }
{
    let [_, behind @ ..] = t else {
        return Err(t);
    };
    let n = multiple_at(behind);
    tally.add_group(group, n.value);
    Ok(&behind[n.size..])
}

// Reads an item, its groups nested at most depth deep, and adds it to the tally.
#[cycle(formula_item)]
fn item<'a>(t: &'a [u8], depth: u64, tally: &mut Tally) -> Rest<'a>
    ensures { Says t.now tally.old result tally.new (read_item depth t.now) }
{
    if byte_at(t, 0) != b'(' {
        return element(t, tally);
    }
    if depth == 0 {
        return Err(t);
    }
    let mut group = Tally::new();
    let end = formula(&t[1..], depth - 1, &mut group)?;
    closed(end, group, tally)
}

// Reads a formula to the end of the text or of the group, its groups nested at most depth deep, and adds it to the tally.
#[cycle(formula_item)]
fn formula<'a>(t: &'a [u8], depth: u64, tally: &mut Tally) -> Rest<'a>
    ensures { Says t.now tally.old result tally.new (read_items depth t.now) }
{
    let mut left = t;
    loop {
        left = item(left, depth, tally)?;
        if ends(left) {
            return Ok(left);
        }
    }
}

// The atom counts of a formula text. Refusals 1, with the length of the longest beginning that begins a formula, and 2, with the lowest element above 200.
pub fn read_formula(text: &[u8]) -> Result<Atoms, Refused>
    ensures value { told result ≡ reading text.now }
    ensures grammar { OnlyOutcome text.now (told result) }
{
    if 256 < text.len() {
        return Err(Reason::NoFormula.at(256));
    }
    let mut tally = Tally::new();
    match formula(text, 8, &mut tally) {
        Ok(left) if left.is_empty() => tally.checked(),
        Ok(left) | Err(left) => Err(Reason::NoFormula.at((text.len() - left.len()) as u64)),
    }
}
