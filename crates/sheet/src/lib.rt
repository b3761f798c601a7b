// The mixture sheet: its answer, and the answer as text.
#![tactic(auto)]

ghost use Rattle.std.specs.Prelude.{◌≡◌, true, None};
ghost use Rattle.answer.specs.Outcome.{told};
ghost use Rattle.text.specs.Decimal.{digit_from};
ghost use Rattle.csv_form.specs.Lines.{all};
ghost use Rattle.csv_form.specs.Sheet.{records, first_bad_record};
ghost use Rattle.blend.specs.Fuel.{text as fuel-text};
ghost use Rattle.blend.specs.Blend.{empty_blend, adding};
ghost use Rattle.sheet.specs.Mixture.{is_parts, good_mixture, spelled_from, record_formula, parts_field, record_parts, at_record, adding_all, sheet_answer};
ghost use Rattle.sheet.specs.ByModel.{ByModel};

use answer::{Reason, Refused, Rounded};
use blend::{Blend, LimitPair, add_fuel_text, blend_limits, empty_blend};
use csv_form::{field_at, is_formed, is_headed, records};
use text::is_digit_from;

mod report;

pub use report::write_answer;

fn all_digits(s: &[u8]) -> bool
    ensures { result ≡ all (digit_from 0) s.now }
{
    s.iter().all(|b| is_digit_from(0, *b))
}

// Whether s is parts: 1 to 7 digits without leading zero, or 0.
#[tactic(auto, unfolding(crate::specs::Mixture::is_parts))]
fn is_parts(s: &[u8]) -> bool
    ensures { result ≡ is_parts s.now }
{
    all_digits(s) && 1 <= s.len() && s.len() <= 7 && (s.len() == 1 || s[0] != b'0')
}

// The formula and the parts of a record.
#[tactic(auto, using(crate::proofs::Records::columns_order, crate::proofs::Records::formula_is, crate::proofs::Records::parts_is))]
fn split(l: &[u8]) -> (&[u8], &[u8])
    ensures formula { result.0.now ≡ record_formula l.now }
    ensures parts { result.1.now ≡ parts_field l.now }
{
    let formula = field_at(l, 0);
    let parts = field_at(l, formula.next);
    (&l[..formula.end], &l[formula.next..parts.end])
}

// Whether a line is a good record.
#[tactic(auto, unfolding(csv_form::specs::Sheet::good_record))]
fn is_record(l: &[u8]) -> bool
    ensures { result ≡ good_mixture l.now }
{
    is_formed(l, 2) && is_parts(split(l).1)
}

// The number of the first bad record.
fn first_bad_record(s: &[u8]) -> Option<u64>
    ensures { result ≡ first_bad_record good_mixture (records s.now) }
{
    records(s)
        .position(|record| !is_record(record))
        .map(|passed| passed as u64 + 1)
}

// The number that digits spell. (The library parses text, and not bytes that are known to be digits.)
#[tactic(auto, using(crate::proofs::Parts::parts_digit, crate::proofs::Parts::spelling_small, crate::proofs::Parts::spelling_ends))]
fn spelled(s: &[u8]) -> u64
    requires { is_parts s.now ≡ true }
    ensures { result ≡ spelled_from 0 s.now }
{
    let mut n: u64 = 0;
    for digit in s {
        n = 10 * n + (*digit - b'0') as u64;
    }
    n
}

// The blend with a good record's parts of its fuel more, or the refusal with the record's place.
fn add_record(b: Blend, place: u64, l: &[u8]) -> Result<Blend, Refused>
    requires { good_mixture l.now ≡ true }
    ensures { told result ≡ at_record place (adding b (fuel-text (record_formula l.now)) (record_parts l.now)) }
{
    let (formula, parts) = split(l);
    add_fuel_text(b, formula, spelled(parts)).map_err(|refused| refused.reason.at(place))
}

// The blend of all records, which are good, or the first refusal with its record.
fn add_records(s: &[u8]) -> Result<Blend, Refused>
    requires { first_bad_record good_mixture (records s.now) ≡ None }
    ensures { told result ≡ adding_all empty_blend 1 (records s.now) }
{
    let mut blend = empty_blend();
    for (passed, record) in records(s).enumerate() {
        blend = add_record(blend, passed as u64 + 1, record)?;
    }
    Ok(blend)
}

// Both limits of the mixture that a sheet lists, with no temperature named. Refusals: 15 with place 0 for a longer sheet or another header, else with the
// first bad record; then 1, 2, 3, 4, 8 with the first record that has one; then 9.
#[tactic(auto, unfolding(crate::specs::Mixture::sheet_answer))]
pub fn sheet_answer(sheet: &[u8]) -> Result<LimitPair<Rounded<u64>>, Refused>
    ensures value { told result ≡ sheet_answer sheet.now }
    ensures by_model { ByModel sheet.now }
{
    if !is_headed(sheet, b"formula,parts") {
        return Err(Reason::BadSheet.at(0));
    }
    if let Some(place) = first_bad_record(sheet) {
        return Err(Reason::BadSheet.at(place));
    }
    blend_limits(add_records(sheet)?)
}
