// Where the wrong bytes of a word are, and what is wrong with them, from its syndromes. A place is counted from the last byte.
ghost use Rattle.std.specs.Prelude.{◌≡◌, ℕ, ◌*◌, ◌<◌, ◌≤◌, ◌↔◌, IsTrue, MatchOption, slice_index};
ghost use Rattle.std.specs.Int.Bits.{bit_xor};
ghost use Rattle.field.specs.Bytes.{AllBytes};
ghost use Rattle.field.specs.CheckBytes.{double, times_power};
ghost use Rattle.field.specs.Products.{field_product};
ghost use Rattle.correction.specs.Locators.{follows, square, linear, constant, single_error, NoPlace, FirstPlace, NoTwoPlaces, FirstTwo};

use field::check_bytes::{times_power, times_root};
use field::polynomial::product_of;

// The first three syndromes, each times the root's power at a place.
#[derive(Debug, Clone, Copy, PartialEq, Eq)]
struct Scaled {
    y0: u8,
    y1: u8,
    y2: u8,
}

impl Scaled {
    // At place 0.
    fn new(s: [u8; 4]) -> Scaled
        ensures zeroth { result.y0 ≡ slice_index s 0 }
        ensures first { result.y1 ≡ slice_index s 1 }
        ensures second { result.y2 ≡ slice_index s 2 }
    {
        Scaled {
            y0: s[0],
            y1: s[1],
            y2: s[2],
        }
    }

    // At the next place.
    fn next(self) -> Scaled
        ensures zeroth { result.y0 ≡ double self.y0 }
        ensures first { result.y1 ≡ double self.y1 }
        ensures second { result.y2 ≡ double self.y2 }
    {
        Scaled {
            y0: times_root(self.y0),
            y1: times_root(self.y1),
            y2: times_root(self.y2),
        }
    }

    // Whether they are the numbers after the first of the `m` numbers of `s`. No array and slices up to `m`: with them 38 places take
    // 1,007 ns with `m` 3, in place of 213, and 1,016 with `m` 2, in place of 32 (prototypes in Rust).
    #[tactic(auto, using(std::proofs::lemmas::Bool::Decides::nat_tests), unfolding(crate::specs::Locators::follows))]
    fn follows(self, m: u8, s: [u8; 4]) -> bool
        ensures { result ≡ follows m s self.y0 self.y1 self.y2 }
    {
        self.y0 == s[1] && (m <= 2 || self.y1 == s[2] && (m <= 3 || self.y2 == s[3]))
    }
}

// The first place below `n` that fits the `m` numbers of `s`. Four bytes with `m` beside: fixed memory, no heap.
pub fn place_of(m: u8, s: [u8; 4], n: usize) -> Option<usize>
    requires { (2 ≤ m) × (m ≤ 4) }
    ensures { MatchOption result (NoPlace m s n) (FirstPlace m s n) }
{
    let mut scaled = Scaled::new(s);
    for p in 0..n {
        if scaled.follows(m, s) {
            return Some(p);
        }
        scaled = scaled.next();
    }
    None
}

// The inverse of a byte that is a power of the root, as every byte but 0 is: its 254th power, for the 255th is 1.
fn inverse_of(x: u8) -> u8
    ensures { (k : ℕ) → x ≡ times_power k 1 → result ≡ times_power (254 * k) 1 }
{
    let two = product_of(x, x);
    let three = product_of(two, x);
    let six = product_of(three, three);
    let twelve = product_of(six, six);
    let fifteen = product_of(twelve, three);
    let thirty = product_of(fifteen, fifteen);
    let sixty = product_of(thirty, thirty);
    let twice_sixty = product_of(sixty, sixty);
    let four_times_sixty = product_of(twice_sixty, twice_sixty);
    product_of(product_of(four_times_sixty, twelve), two)
}

// The byte which, at both the places `p` and `q`, makes the sum `c`.
pub fn error_value(p: usize, q: usize, c: u8) -> u8
    requires { (q < p) × (p < 255) }
    ensures { bit_xor (times_power p result) (times_power q result) ≡ c }
{
    if c == 0 {
        return 0;
    }
    product_of(c, inverse_of(times_power(p, 1) ^ times_power(q, 1)))
}

// Two products, XORed.
fn minor(a: u8, b: u8, c: u8, d: u8) -> u8
    ensures { result ≡ bit_xor (field_product a b) (field_product c d) }
{
    product_of(a, b) ^ product_of(c, d)
}

// Whether one wrong byte is all that is looked for: with two syndromes always; with four where the locator has no square term, which two
// wrong bytes would leave.
pub fn single_error(r: u8, s: [u8; 4]) -> bool
    ensures { result ≡ single_error r s }
{
    r == 2 || minor(s[0], s[2], s[1], s[1]) == 0
}

// The terms of the error locator at a place.
#[derive(Debug, Clone, Copy, PartialEq, Eq)]
struct Locator {
    square: u8,
    linear: u8,
    constant: u8,
}

impl Locator {
    // At place 0: the coefficients.
    fn new(s: [u8; 4]) -> Locator
        ensures squared { result.square ≡ square s }
        ensures plain { result.linear ≡ linear s }
        ensures constant { result.constant ≡ constant s }
    {
        Locator {
            square: minor(s[0], s[2], s[1], s[1]),
            linear: minor(s[0], s[3], s[1], s[2]),
            constant: minor(s[1], s[3], s[2], s[2]),
        }
    }

    fn is_zero(self) -> bool
        ensures { IsTrue result ↔ (bit_xor self.square self.linear ≡ self.constant) }
    {
        self.square ^ self.linear == self.constant
    }

    // At the next place.
    fn next(self) -> Locator
        ensures squared { result.square ≡ double (double self.square) }
        ensures plain { result.linear ≡ double self.linear }
        ensures constant { result.constant ≡ self.constant }
    {
        Locator {
            square: times_root(times_root(self.square)),
            linear: times_root(self.linear),
            constant: self.constant,
        }
    }
}

// Two places, the larger one first, and the first number that this one leaves of the syndromes.
#[derive(Debug, Clone, Copy, PartialEq, Eq)]
pub struct TwoPlaces {
    pub p: usize,
    pub q: usize,
    pub rest: u8,
}

// The first place below `n` that fits four syndromes with a place below it, and that place. A place is tried only where the locator is
// 0: with a square term, at two places at most.
pub fn two_places(s: [u8; 4], n: usize) -> Option<TwoPlaces>
    requires { AllBytes s }
    ensures { MatchOption result (NoTwoPlaces s n) (λ two. FirstTwo s n two.p two.q two.rest) }
{
    let mut locator = Locator::new(s);
    let mut scaled = Scaled::new(s);
    for p in 0..n {
        if locator.is_zero() {
            let t = [s[1] ^ scaled.y0, s[2] ^ scaled.y1, s[3] ^ scaled.y2, 0];
            if let Some(q) = place_of(3, t, p) {
                return Some(TwoPlaces { p, q, rest: t[0] });
            }
        }
        locator = locator.next();
        scaled = scaled.next();
    }
    None
}
