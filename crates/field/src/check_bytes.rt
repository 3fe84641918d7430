ghost use Rattle.std.specs.Prelude.{◌≡◌};
ghost use Rattle.field.specs.Bytes.{padded};
ghost use Rattle.field.specs.CheckBytes.{CheckCount, double, times_power, value_at, syndromes, parity};

use crate::check_four;

// `x` times the root.
pub fn times_root(x: u8) -> u8
    ensures { result ≡ double x }
{
    let up = x << 1;
    if x >= 128 { up ^ 0x1D } else { up }
}

// `x` times the root's `k`-th power.
pub fn times_power(k: usize, x: u8) -> u8
    ensures { result ≡ times_power k x }
{
    let mut y = x;
    for _ in 0..k {
        y = times_root(y);
    }
    y
}

// The value of a word at the root's I-th power, by Horner's rule.
pub(crate) fn value_at<const I: usize>(word: &[u8]) -> u8
    ensures { result ≡ value_at I word.now }
{
    let mut value = 0;
    for &b in word {
        value = times_power(I, value) ^ b;
    }
    value
}

// The `r` syndromes of a word, as four bytes, those past `r` being 0: fixed memory, no heap. What `r` is stays a clause: it is the card's
// number, which question 2 asks (docs/DECISIONS.md, 4, names the functions). No const parameter chooses: `r` is known when the code runs.
pub fn syndromes_of(r: u8, word: &[u8]) -> [u8; 4]
    requires { CheckCount r }
    ensures { result ≡ syndromes r word.now }
{
    if r == 2 {
        return [value_at::<0>(word), value_at::<1>(word), 0, 0];
    }
    check_four::syndromes_four(word)
}

// The two parity bytes of a message, by long division: at each byte the remainder moves up one place, and a multiple of the
// generator polynomial takes out what left it. Not one function with `parity_four`: its tables are those of the polynomial for R = 4 and
// serve no other.
fn parity_two(message: &[u8]) -> [u8; 4]
    ensures { result ≡ padded 4 (parity 2 message.now) }
{
    let mut a: u8 = 0;
    let mut b: u8 = 0;
    for &x in message {
        let f = a ^ x;
        let f2 = times_root(f);
        a = b ^ (f ^ f2);
        b = f2;
    }
    [a, b, 0, 0]
}

// The `r` parity bytes of a message, as four bytes, those past `r` being 0. As in `syndromes_of`, `r` is asked of and chooses.
pub fn parity_of(r: u8, message: &[u8]) -> [u8; 4]
    requires { CheckCount r }
    ensures { result ≡ padded 4 (parity r message.now) }
{
    if r == 2 {
        return parity_two(message);
    }
    check_four::parity_four(message)
}
