// The elements with their symbols, and atom counts: the lowest element above a bound, and weighted sums.
#![tactic(auto)]

ghost use Rattle.std.specs.Prelude.{◌≡◌, ◌*◌, ◌≤◌, length, ltb, min, position, zip};
ghost use Rattle.elements.specs.Elements.{number, symbol, count, each, first_above, is_empty, weighted_sum};

// The elements by their numbers.
#[derive(Clone, Copy, Debug, PartialEq, Eq)]
pub enum Element {
    Carbon = 1,
    Hydrogen = 2,
    Oxygen = 3,
    Nitrogen = 4,
    Sulfur = 5,
    Phosphorus = 6,
    Fluorine = 7,
    Chlorine = 8,
    Bromine = 9,
    Silicon = 10,
}

// Atom counts, indexed by element number less one.
#[repr(C)]
#[derive(Clone, Copy, Debug, PartialEq, Eq)]
pub struct Atoms {
    pub count: [u64; 10],
}

// The number of an element. (It is the enum's; its promise stands here.)
pub fn number_of(e: Element) -> u64
    ensures { result ≡ number e }
{
    e as u64
}

impl Element {
    // The bytes of the symbol.
    pub fn symbol(self) -> &'static [u8]
        ensures { result.now ≡ symbol self }
    {
        match self {
            Element::Carbon => b"C",
            Element::Hydrogen => b"H",
            Element::Oxygen => b"O",
            Element::Nitrogen => b"N",
            Element::Sulfur => b"S",
            Element::Phosphorus => b"P",
            Element::Fluorine => b"F",
            Element::Chlorine => b"Cl",
            Element::Bromine => b"Br",
            Element::Silicon => b"Si",
        }
    }
}

impl Atoms {
    // The atoms of an element.
    pub fn of(&self, e: Element) -> u64
        ensures { result ≡ count self.now e }
    {
        self.count[number_of(e) as usize - 1]
    }
}

// n atoms of each element.
pub fn each(n: u64) -> Atoms
    ensures { result ≡ each n }
{
    Atoms { count: [n; 10] }
}

// The index of the first count that is above its bound.
fn index_above(bounds: Atoms, atoms: Atoms) -> Option<usize>
    ensures first { result ≡ position (λ p. ltb p.0 p.1) (zip bounds.count atoms.count) }
    ensures ten { length (zip bounds.count atoms.count) ≡ 10 }
{
    bounds
        .count
        .iter()
        .zip(atoms.count.iter())
        .position(|(bound, n)| *bound < *n)
}

// The number of the lowest element with more atoms than its bound. (A number, and no `Element`, as the definition has it: it is the place of a refusal.)
pub fn first_above(bounds: Atoms, atoms: Atoms) -> Option<u64>
    ensures { result ≡ first_above bounds atoms }
{
    let i = index_above(bounds, atoms)?;
    Some(i as u64 + 1)
}

// No atoms of any element.
#[tactic(auto, unfolding(crate::specs::Elements::is_empty))]
pub fn is_empty(atoms: Atoms) -> bool
    ensures { result ≡ is_empty atoms }
{
    first_above(each(0), atoms).is_none()
}

// A weight times a count, which is taken as 200 where it is above that.
fn weighted(weight: u8, count: u64) -> u64
    ensures { (result ≡ weight * min count 200) × (result ≤ 51000) }
{
    weight as u64 * count.min(200)
}

// A weight for each element times its count, added up. A count above 200 is taken as 200. (Over `zip` the loop is no plainer: it was tried, and its goals
// stayed open.)
pub fn weighted_sum(weights: [u8; 10], atoms: Atoms) -> u64
    ensures { result ≡ weighted_sum weights atoms }
{
    let mut sum = 0;
    for (i, weight) in weights.iter().enumerate() {
        sum += weighted(*weight, atoms.count[i]);
    }
    sum
}
