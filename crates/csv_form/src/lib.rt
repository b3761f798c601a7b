// RFC 4180 text: the lines of a text, the fields of a line, the form of a record, and a sheet's header.
#![tactic(auto)]

ghost use Rattle.std.specs.Prelude.{◌≡◌, Bool, List, ℕ, ⊤, ◌+◌, ◌≤◌, ◌<◌, IfSome, length, drop};
ghost use Rattle.std.specs.Option.{ForSome};
ghost use Rattle.std.specs.Iterator.{YieldsFirstRef, at_most};
ghost use Rattle.csv_form.specs.Lines.{crlf, comma, first, span_at, line_at, field_at, plain, fields, left};
ghost use Rattle.csv_form.specs.Sheet.{headed, formed, records};

use std::cmp::min;

// A line of a text or a field of a line: where it ends, and where the next one begins; both are at most the text's length. A field that ends there is the
// last one, and a line is where the next would begin there.
#[derive(Clone, Copy, Debug, PartialEq, Eq)]
pub struct Span {
    pub end: usize,
    pub next: usize,
}

// Whether a text begins with CRLF.
#[tactic(auto, unfolding(crate::specs::Lines::crlf))]
fn is_crlf(s: &[u8]) -> bool
    ensures { result ≡ crlf s.now }
{
    matches!(s, [b'\r', b'\n', ..])
}

// Where the first CRLF of a text stands.
fn find_crlf(s: &[u8]) -> Option<usize>
    ensures value { result ≡ first crlf s.now }
    ensures within { IfSome result (λ at. at + 2 ≤ length s.now) }
{
    s.windows(2).position(|pair| is_crlf(pair))
}

// Where the first comma of a line stands.
fn find_comma(l: &[u8]) -> Option<usize>
    ensures value { result ≡ first comma l.now }
    ensures within { IfSome result (λ at. at + 1 ≤ length l.now) }
{
    l.iter().position(|b| *b == b',')
}

// What is left of a text from a position on: nothing at the end and past it.
fn tail(s: &[u8], at: usize) -> &[u8]
    ensures { result.now ≡ drop at s.now }
{
    &s[min(at, s.len())..]
}

// What begins at a position and ends where a search from there found its end, with a gap before the next; where it found none, the last, up to the end.
fn span_to(s: &[u8], at: usize, found: Option<usize>, gap: usize) -> Span
    requires { ForSome found (λ size. size + gap ≤ length (drop at s.now)) }
    ensures { (test : List ℕ → Bool) → 0 < gap → found ≡ first test (drop at s.now) → result ≡ span_at test gap s.now at }
{
    match found {
        Some(size) => Span {
            end: at + size,
            next: at + size + gap,
        },
        None => Span {
            end: s.len(),
            next: s.len(),
        },
    }
}

// The line that begins at a position of a text. At the end and past it, it is empty and stands at the end.
pub fn line_at(s: &[u8], at: usize) -> Span
    ensures { result ≡ line_at s.now at }
{
    span_to(s, at, find_crlf(tail(s, at)), 2)
}

// The field that begins at a position of a line, which has in common with a line what `span_to` does. At the end and past it, it is empty and stands at the
// end.
pub fn field_at(l: &[u8], at: usize) -> Span
    ensures { result ≡ field_at l.now at }
{
    span_to(l, at, find_comma(tail(l, at)), 1)
}

// The lines of a text that are left, in order.
#[derive(Clone, Copy)]
pub struct Lines<'a> {
    rest: &'a [u8],
}

impl<'a> Iterator for Lines<'a> {
    type Item = &'a [u8];

    ghost can_next = { λ _. ⊤ };

    ghost next_gives = { YieldsFirstRef left };

    ghost remaining = { λ s. at_most (length s.rest.now) };

    #[tactic(auto, using(crate::proofs::LineLaws::line_order, crate::proofs::LineLaws::line_size, crate::proofs::LineLaws::line_further, crate::proofs::LineLaws::lines_none, crate::proofs::LineLaws::lines_next,))]
    fn next(&mut self) -> Option<&'a [u8]> {
        if self.rest.is_empty() {
            return None;
        }
        let line = line_at(self.rest, 0);
        let first = &self.rest[..line.end];
        self.rest = &self.rest[line.next..];
        Some(first)
    }
}

// The records of a sheet: the lines behind the first.
#[tactic(auto, using(crate::proofs::LineLaws::line_order, crate::proofs::LineLaws::records_next))]
pub fn records(s: &[u8]) -> Lines<'_>
    ensures { left result ≡ records s.now }
{
    Lines {
        rest: &s[line_at(s, 0).next..],
    }
}

#[tactic(auto, unfolding(crate::specs::Lines::plain))]
fn is_plain(b: u8) -> bool
    ensures { result ≡ plain b }
{
    !matches!(b, b'"' | b'\r' | b'\n')
}

// How many fields a line has: one more than commas. (Added up with no branch, since where a comma stands in a record cannot be foreseen, and a library's
// `filter` jumps there.)
fn field_count(l: &[u8]) -> usize
    ensures { result ≡ length (fields l.now) }
{
    let mut count = 1;
    for b in l {
        count += usize::from(*b == b',');
    }
    count
}

// Whether a line has the form of a record of n fields: no quote mark, CR or LF, and one comma less than fields.
#[tactic(auto, unfolding(crate::specs::Sheet::formed))]
pub fn is_formed(l: &[u8], n: usize) -> bool
    ensures { result ≡ formed n l.now }
{
    l.iter().all(|b| is_plain(*b)) && field_count(l) == n
}

// Whether a sheet has at most 64 KiB and begins with the header line.
#[tactic(auto, unfolding(crate::specs::Sheet::headed))]
pub fn is_headed(s: &[u8], header: &[u8]) -> bool
    ensures { result ≡ headed header.now s.now }
{
    s.len() <= 65536 && &s[..line_at(s, 0).end] == header
}
