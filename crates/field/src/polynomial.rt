// Numbers as polynomials over the field of two elements, and their products: of bytes in the field of the check bytes, and of seeds.
ghost use Rattle.std.specs.Prelude.{◌≡◌, ℕ, ◌-◌, ◌/◌, ◌%◌, ◌^◌, ◌<◌, ◌↔◌, IsTrue, bit_xor};
ghost use Rattle.field.specs.Shift.{shift_up};
ghost use Rattle.field.specs.Generator.{schedule_polynomial, seed_after, seed_after-shifts};
ghost use Rattle.field.specs.CheckBytes.{field_polynomial, double, double-shifts};
ghost use Rattle.field.specs.Products.{times};

use crate::check_bytes::times_root;
use crate::generator::step_seed;

// A number whose bit i stands for x^i. It is taken modulo a polynomial, of which `modulus` is all but the highest term.
pub trait Polynomial: Copy {
    ghost WIDTH: { ℕ };

    ghost number: { Self → ℕ };

    ghost modulus: { ℕ };

    // Times x.
    ghost step: { ℕ → ℕ };

    // How many bits it has.
    const WIDTH: u32;

    fn zero() -> Self
        ensures { number result ≡ 0 };

    // Whether x^i is one of its terms.
    fn has_term(self, i: u32) -> bool
        requires { i < WIDTH }
        ensures { IsTrue result ↔ (number self / 2 ^ i % 2 ≡ 1) };

    fn plus(self, other: Self) -> Self
        ensures { number result ≡ bit_xor (number self) (number other) };

    fn times_x(self) -> Self
        ensures { number result ≡ step (number self) };

    ghost shifts: { (v : ℕ) → step v ≡ shift_up (WIDTH - 1) modulus v };
}

// The two impls have like bodies. No macro writes them: the gate refuses an impl that one of the repository's own writes.
impl Polynomial for u8 {
    ghost WIDTH = { 8 };

    ghost number = { λ x. x };

    ghost modulus = { field_polynomial };

    ghost step = { double };

    ghost shifts = { double-shifts };

    const WIDTH: u32 = 8;

    fn zero() -> u8 {
        0
    }

    fn has_term(self, i: u32) -> bool {
        (self >> i) % 2 == 1
    }

    fn plus(self, other: u8) -> u8 {
        self ^ other
    }

    fn times_x(self) -> u8 {
        times_root(self)
    }
}

impl Polynomial for u32 {
    ghost WIDTH = { 32 };

    ghost number = { λ x. x };

    ghost modulus = { schedule_polynomial };

    ghost step = { seed_after };

    ghost shifts = { seed_after-shifts };

    const WIDTH: u32 = 32;

    fn zero() -> u32 {
        0
    }

    fn has_term(self, i: u32) -> bool {
        (self >> i) % 2 == 1
    }

    fn plus(self, other: u32) -> u32 {
        self ^ other
    }

    fn times_x(self) -> u32 {
        step_seed(self)
    }
}

// The product of two: `b` times x^i for each term x^i of `a`, added together.
pub fn product_of<P: Polynomial>(a: P, b: P) -> P
    ensures { P.number result ≡ times P.step P.WIDTH (P.number a) (P.number b) }
{
    let mut sum = P::zero();
    let mut stepped = b;
    for i in 0..P::WIDTH {
        if a.has_term(i) {
            sum = sum.plus(stepped);
        }
        stepped = stepped.times_x();
    }
    sum
}
