// A fraction of polynomials in lowest terms.
#![tactic(auto)]

ghost use Rattle.std.specs.Prelude.{◌≤◌, ◌<◌, ◌≡◌};
ghost use Rattle.field.specs.Primes.{modulus_of};
ghost use Rattle.poly.specs.Coefficients.{Bounded};
ghost use Rattle.poly.specs.Operations.{length_of};
ghost use Rattle.fraction.specs.LowestTerms.{reduced_numerator, reduced_denominator};

use field::Prime;
use poly::Poly;

#[derive(Clone, Copy)]
pub struct Fraction {
    pub numerator: Poly,
    pub denominator: Poly,
}

// phi / psi without the greatest common divisor, the denominator with leading coefficient 1.
pub fn lowest_terms(q: Prime, n: usize, phi: Poly, psi: Poly) -> Fraction
    requires { (n ≤ 32) × Bounded (modulus_of q) n phi.c × Bounded (modulus_of q) n psi.c × (0 < length_of psi.c) }
    ensures { (result.numerator.c ≡ reduced_numerator (modulus_of q) phi.c psi.c) × Bounded (modulus_of q) n result.numerator.c
        × (result.denominator.c ≡ reduced_denominator (modulus_of q) phi.c psi.c) × Bounded (modulus_of q) n result.denominator.c
        × (0 < length_of result.denominator.c) }
{
    let la = poly::length(n, phi);
    let lb = poly::length(n, psi);
    let c = euclid::gcd(q, phi, la, psi, lb);
    let lc = poly::length(n, c);
    let a = euclid::divide(q, phi, la, c, lc);
    let h = euclid::divide(q, psi, lb, c, lc);
    let numerator = a.quotient;
    let denominator = h.quotient;
    let lh = poly::length(n, denominator);
    let k = reciprocal::nonzero_reciprocal(q, denominator.c[lh - 1]);
    Fraction {
        numerator: poly::scaled(q, n, k, numerator),
        denominator: poly::scaled(q, n, k, denominator),
    }
}
