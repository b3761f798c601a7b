// The vapour curve: which curves are accepted, the pressure at a temperature, and the smallest hundredth of a degree at which a condition holds.
// Temperatures come in and go out in hundredths of °C; inside they are counted from −273 °C.
#![tactic(auto)]

ghost use Rattle.std.specs.Prelude.{◌≡◌, ℕ, Bool, true, false, ◌+◌, ◌-◌, ◌≤◌, ◌<◌, pos, length};
ghost use Rattle.answer.specs.Outcome.{answered, refusal_of, told, and_then};
ghost use Rattle.curve.specs.Smallest.{kelvin as kelvin_of, celsius, clamp as clamp_of, smallest, met};
ghost use Rattle.curve.specs.Curve.{curve, points, temperature, pressure, first, last, sized, rising, bad_point, first_bad_point, accepting, Accepted, between, segment, segment_of, pressure_at, pressure_asked, searched_on, on_curve, Sound};
ghost use Rattle.curve.specs.Condition.{bounded, test_of, met_within};
ghost use Rattle.curve.specs.Internal.{curve_of, Sloped, Tells, Lasts};

use answer::{Reason, Refused, is_outside};
use rounding::divide;

// level ≤ (slope · t + base) · p, of a temperature t and a pressure p.
#[derive(Clone, Copy, Debug, PartialEq, Eq)]
pub struct Condition {
    pub slope: u64,
    pub base: u64,
    pub level: u64,
}

// A segment of a curve.
#[derive(Clone, Copy)]
pub struct Segment {
    pub from: u64,
    pub to: u64,
    pub low: u64,
    pub high: u64,
}

// A segment of an accepted curve.
#[derive(Clone, Copy)]
struct AcceptedSegment {
    segment: Segment,
    ghost sloped: { Sloped segment },
}

// A curve as it is handed in: temperatures in hundredths of °C, and a pressure in Pa at each.
#[derive(Clone, Copy)]
struct Curve<'a> {
    temperatures: &'a [i64],
    pressures: &'a [u64],
}

// A curve that was accepted.
#[derive(Clone, Copy)]
struct AcceptedCurve<'a> {
    curve: Curve<'a>,
    ghost accepted: { Accepted (curve_of curve) },
    ghost two: { 2 ≤ length curve.temperatures.now },
    ghost paired: { length curve.temperatures.now ≡ length curve.pressures.now },
}

// A temperature in hundredths of °C, counted from −273 °C; 0 below. (No sum wraps; the library's saturating sum takes more than twice as many instructions.)
pub fn kelvin(t: i64) -> u64
    ensures { result ≡ kelvin_of t }
{
    27300u64.wrapping_add_signed(t.max(-27300))
}

// The way back: the answer t, counted from −273 °C; 600.00 for a later one.
#[tactic(auto, using(crate::proofs::Signed::min_only, crate::proofs::Signed::lowered_is))]
pub fn answer_at(t: u64) -> i64
    ensures { result ≡ celsius (clamp_of 0 87300 t) }
{
    t.min(87300) as i64 - 27300
}

// The smallest number above low that passes a test, by halving. The test keeps passing once it passes, and high passes.
fn bisect<F: Fn(u64) -> bool>(passes: F, low: u64, high: u64) -> u64
    requires apart { low < high }
    requires callable { (n : ℕ) → low < n → n < high → F.pre passes n }
    ensures above { low < result }
    ensures within { result ≤ high }
    ensures smallest { (f : ℕ → Bool) → Tells (F.post passes) f low high → Lasts f low high → result ≡ smallest f (low + 1) high }
{
    let mut below = low;
    let mut found = high;
    loop {
        if found - below <= 1 {
            break found;
        }
        let mid = below + (found - below) / 2;
        if passes(mid) {
            found = mid;
        } else {
            below = mid;
        }
    }
}

// Whether (slope · 87300 + base) · 250000 is below 2 ^ 64.
#[tactic(auto, unfolding(crate::specs::Condition::bounded))]
fn is_bounded(c: Condition) -> bool
    ensures { result ≡ bounded c }
{
    c.slope <= 845211641 && c.base <= 73786976294838 - 87300 * c.slope
}

// Whether the condition holds at t and p; it does not where it is not bounded, beyond 600.00 °C or beyond 250,000 Pa.
#[tactic(auto, unfolding(crate::specs::Condition::met_within, crate::specs::Condition::test_of, crate::specs::Condition::holds), using(crate::proofs::Conditions::factor_most, crate::proofs::Conditions::product_most))]
pub fn is_met(c: Condition, t: u64, p: u64) -> bool
    ensures { result ≡ met_within c t p }
{
    t <= 87300 && p <= 250000 && is_bounded(c) && c.level <= (c.slope * t + c.base) * p
}

impl Segment {
    // Whether the point that ends it is above the one that starts it.
    #[tactic(auto, unfolding(crate::specs::Curve::rising))]
    fn is_rising(self) -> bool
        ensures { result ≡ rising self }
    {
        self.from < self.to && self.low < self.high
    }
}

impl AcceptedSegment {
    // The pressure at t, rounded down.
    fn pressure_at(self, t: u64) -> u64
        requires { (self.segment.from ≤ t) × (t ≤ self.segment.to) }
        ensures { (result ≡ between self.segment t) × (result ≤ 250000) }
    {
        let s = self.segment;
        let rise = divide((s.high - s.low) * (t - s.from), s.to - s.from);
        s.low + rise.quotient
    }

    // Whether the condition holds at t.
    #[tactic(auto, using(crate::proofs::Conditions::met_inside))]
    fn is_met_at(self, c: Condition, t: u64) -> bool
        requires { (self.segment.from ≤ t) × (t ≤ self.segment.to) }
        ensures { result ≡ met (test_of c) (between self.segment) t }
    {
        is_met(c, t, self.pressure_at(t))
    }

    // The smallest hundredth at which the condition holds; it fails at the segment's start and holds at its end.
    fn hundredth(self, c: Condition) -> u64
        requires fails { met (test_of c) (between self.segment) self.segment.from ≡ false }
        requires holds { met (test_of c) (between self.segment) self.segment.to ≡ true }
        ensures { result ≡ smallest (met (test_of c) (between self.segment)) self.segment.from self.segment.to }
    {
        bisect(|t| self.is_met_at(c, t), self.segment.from, self.segment.to)
    }
}

// That i is a point is required of each method that takes one: each caller has i from a loop or a search, and a type for it would be no plainer.
impl<'a> Curve<'a> {
    // The temperature of point i.
    fn temperature_at(&self, i: usize) -> u64
        requires { i < length self.now.temperatures.now }
        ensures { result ≡ temperature (curve_of self.now) i }
    {
        kelvin(self.temperatures[i])
    }

    // The segment that ends at point i.
    fn segment_at(&self, i: usize) -> Segment
        requires { (1 ≤ i) × (i < length self.now.temperatures.now) × (i < length self.now.pressures.now) }
        ensures { result ≡ segment (curve_of self.now) i }
    {
        Segment {
            from: self.temperature_at(i - 1),
            to: self.temperature_at(i),
            low: self.pressures[i - 1],
            high: self.pressures[i],
        }
    }

    // Whether the lists are of equal length, 2 to 4,096 points.
    #[tactic(auto, unfolding(crate::specs::Curve::sizes))]
    fn is_sized(&self) -> bool
        ensures { result ≡ sized (curve_of self.now) }
    {
        let n = self.temperatures.len();
        n == self.pressures.len() && 2 <= n && n <= 4096
    }

    // Whether point i is bad.
    #[tactic(auto, unfolding(crate::specs::Curve::bad_point, crate::specs::Curve::out_of_range))]
    fn is_bad_point(&self, i: usize) -> bool
        requires { (i < length self.now.temperatures.now) × (i < length self.now.pressures.now) }
        ensures { result ≡ bad_point (curve_of self.now) i }
    {
        is_outside(-20000, 60000, self.temperatures[i])
            || is_outside(1, 250000, self.pressures[i])
            || 0 < i && !self.segment_at(i).is_rising()
    }

    // The first bad point.
    fn first_bad_point(&self) -> Option<usize>
        requires { length self.now.temperatures.now ≡ length self.now.pressures.now }
        ensures { result ≡ first_bad_point (curve_of self.now) }
    {
        (0..self.temperatures.len()).find(|i| self.is_bad_point(*i))
    }
}

impl<'a> AcceptedCurve<'a> {
    // The curve of two lists, where it is accepted. Refusal 11.
    #[tactic(auto, unfolding(crate::specs::Curve::accepting), using(crate::proofs::Acceptance::accepts, crate::proofs::Acceptance::sized_two, crate::proofs::Acceptance::sized_paired))]
    fn of(temperatures: &'a [i64], pressures: &'a [u64]) -> Result<AcceptedCurve<'a>, Refused>
        ensures { and_then (told result) (λ k. answered (curve_of k.curve)) ≡ accepting (curve temperatures.now pressures.now) }
    {
        let curve = Curve {
            temperatures,
            pressures,
        };
        if !curve.is_sized() {
            return Err(Reason::BadCurve.at(0));
        }
        if let Some(i) = curve.first_bad_point() {
            return Err(Reason::BadCurve.at(i as u64));
        }
        Ok(AcceptedCurve { curve })
    }

    // The last point.
    fn last_point(&self) -> usize
        ensures { result ≡ points (curve_of self.now.curve) - 1 }
    {
        self.curve.temperatures.len() - 1
    }

    // The first temperature, and the last.
    fn first(&self) -> u64
        ensures { result ≡ first (curve_of self.now.curve) }
    {
        self.curve.temperature_at(0)
    }

    fn last(&self) -> u64
        ensures { result ≡ last (curve_of self.now.curve) }
    {
        self.curve.temperature_at(self.last_point())
    }

    // The segment that ends at point i.
    fn segment_at(&self, i: usize) -> AcceptedSegment
        requires { (1 ≤ i) × (i < points (curve_of self.now.curve)) }
        ensures { result.segment ≡ segment (curve_of self.now.curve) i }
    {
        AcceptedSegment {
            segment: self.curve.segment_at(i),
        }
    }

    // The segment that has t.
    fn segment_of(&self, t: u64) -> AcceptedSegment
        requires { t ≤ last (curve_of self.now.curve) }
        ensures { let k = curve_of self.now.curve in result.segment ≡ segment k (segment_of k t) }
    {
        let end = bisect(
            |i| t <= self.curve.temperature_at(i as usize),
            0,
            self.last_point() as u64,
        );
        self.segment_at(end as usize)
    }

    // The pressure at t; below the curve's first temperature that of the first point, above its last that of the last.
    fn pressure_at(&self, t: u64) -> u64
        ensures { let k = curve_of self.now.curve in result ≡ pressure_at k (clamp_of (first k) (last k) t) }
    {
        let t = t.clamp(self.first(), self.last());
        self.segment_of(t).pressure_at(t)
    }

    // Whether the condition holds at point i.
    fn is_met_at(&self, c: Condition, i: usize) -> bool
        requires { i < points (curve_of self.now.curve) }
        ensures { let k = curve_of self.now.curve in result ≡ test_of c (temperature k i) (pressure k i) }
    {
        is_met(c, self.curve.temperature_at(i), self.curve.pressures[i])
    }

    // Where the condition holds at point i and at none before: the smallest hundredth of the segment that ends there, or refusal 12 at the first point.
    fn answer_at_point(&self, c: Condition, i: usize) -> Result<i64, Refused>
        requires point { i < points (curve_of self.now.curve) }
        requires holds { let k = curve_of self.now.curve in test_of c (temperature k i) (pressure k i) ≡ true }
        requires fails { let k = curve_of self.now.curve in (j : ℕ) → j < i → test_of c (temperature k j) (pressure k j) ≡ false }
        ensures { told result ≡ searched_on (test_of c) (curve_of self.now.curve) }
    {
        if i == 0 {
            return Err(Reason::TrueAtFirst.at(0));
        }
        Ok(answer_at(self.segment_at(i).hundredth(c)))
    }

    // The search: over the segments, then over the hundredths of the first that ends where the condition holds; each is left by `break`, as document 01 names
    // it. Refusals 12, 13.
    fn smallest_hundredth(&self, c: Condition) -> Result<i64, Refused>
        ensures { told result ≡ searched_on (test_of c) (curve_of self.now.curve) }
    {
        let mut found = Err(Reason::FalseAtLast.at(0));
        for i in 0..self.curve.temperatures.len() {
            if self.is_met_at(c, i) {
                found = self.answer_at_point(c, i);
                break;
            }
        }
        found
    }
}

// Whether a curve is accepted. Refusal 11. (Here and below the two lists stand apart, as C hands them to the questions that end in `smallest_hundredth`.)
pub fn check_curve(temperatures: &[i64], pressures: &[u64]) -> Result<(), Refused>
    ensures { refusal_of (told result) ≡ refusal_of (accepting (curve temperatures.now pressures.now)) }
{
    AcceptedCurve::of(temperatures, pressures)?;
    Ok(())
}

// The pressure at a temperature; below the curve's first temperature that of the first point, above its last that of the last. Refusal 11.
#[tactic(auto, unfolding(crate::specs::Curve::pressure_asked))]
pub fn pressure_at(
    temperatures: &[i64],
    pressures: &[u64],
    temperature: i64,
) -> Result<u64, Refused>
    ensures { told result ≡ pressure_asked temperature (curve temperatures.now pressures.now) }
{
    let curve = AcceptedCurve::of(temperatures, pressures)?;
    Ok(curve.pressure_at(kelvin(temperature)))
}

// The smallest hundredth of a degree at which the condition holds along a curve; one that is not bounded holds nowhere. Refusals 11, 12, 13.
#[tactic(auto, unfolding(crate::specs::Curve::on_curve), using(crate::proofs::Searches::sound))]
pub fn smallest_hundredth(
    c: Condition,
    temperatures: &[i64],
    pressures: &[u64],
) -> Result<i64, Refused>
    ensures value { told result ≡ on_curve (test_of c) (curve temperatures.now pressures.now) }
    ensures sound { Sound (curve temperatures.now pressures.now) }
{
    AcceptedCurve::of(temperatures, pressures)?.smallest_hundredth(c)
}
