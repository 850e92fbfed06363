// Polynomials modulo one of the four primes, with at most 32 coefficients: lengths, products, multiples by a number.
// The parameter n of a function says from where on all coefficients are zero: the loops go no further.
#![tactic(auto)]

pub mod multiplication;
pub mod scaling;

ghost use Rattle.std.specs.Prelude.{ℕ, ◌≤◌, ◌≡◌, get_or, replicate};
ghost use Rattle.poly.specs.Operations.{length_of};

pub use multiplication::product;
pub use scaling::scaled;

// Coefficients from the constant term upward.
#[derive(Clone, Copy)]
pub struct Poly {
    pub c: [u32; 32],
}

// A vector of fractions in lowest terms: the common denominator and the numerators, those of outputs that do not exist being zero.
#[derive(Clone, Copy)]
pub struct Vector {
    pub g: Poly,
    pub f: [Poly; 4],
}

pub fn zero() -> Poly
    ensures { result.c ≡ replicate 32 0 }
{
    Poly { c: [0u32; 32] }
}

// The degree plus 1; 0 for the zero polynomial.
pub fn length(n: usize, a: Poly) -> usize
    requires { (n ≤ 32) × ((k : ℕ) → n ≤ k → get_or a.c k 0 ≡ 0) }
    ensures { (result ≡ length_of a.c) × (result ≤ n) }
{
    for i in (0..n).rev() {
        if a.c[i] != 0 {
            return i + 1;
        }
    }
    0
}
