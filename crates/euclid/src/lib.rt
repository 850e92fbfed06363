// Division with remainder and the greatest common divisor of polynomials modulo one of the four primes.
// A length is the degree plus 1, and 0 for the zero polynomial.
#![tactic(auto)]

pub mod division;

ghost use Rattle.std.specs.Prelude.{◌≤◌, max, ◌≡◌};
ghost use Rattle.field.specs.Primes.{modulus_of};
ghost use Rattle.poly.specs.Coefficients.{Bounded};
ghost use Rattle.poly.specs.Operations.{length_of};
ghost use Rattle.euclid.specs.Euclid.{gcd_of};

pub use division::{Division, divide};
use field::Prime;
use poly::Poly;

// The greatest common divisor. The length of the second polynomial falls at each call.
pub fn gcd(q: Prime, a: Poly, la: usize, b: Poly, lb: usize) -> Poly
    requires { (la ≤ 32) × Bounded (modulus_of q) la a.c × (lb ≡ length_of b.c) × Bounded (modulus_of q) lb b.c }
    ensures { (result.c ≡ gcd_of (modulus_of q) a.c b.c) × Bounded (modulus_of q) (max la lb) result.c }
{
    if lb == 0 {
        return a;
    }
    let d = division::divide(q, a, la, b, lb);
    let r = d.remainder;
    let lr = poly::length(lb - 1, r);
    gcd(q, b, lb, r, lr)
}
