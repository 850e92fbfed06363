// Division with remainder of polynomials modulo one of the four primes. A length is the degree plus 1, and 0 for the zero polynomial.
ghost use Rattle.std.specs.Prelude.{◌+◌, ◌-◌, ◌*◌, ◌%◌, ◌≤◌, ◌<◌, ◌≡◌, length};
ghost use Rattle.field.specs.Primes.{modulus_of};
ghost use Rattle.poly.specs.Coefficients.{Bounded};
ghost use Rattle.poly.specs.Operations.{length_of};
ghost use Rattle.euclid.specs.Division.{cancelled_of, remainder_of, quotient_of};

use field::Prime;
use poly::Poly;

#[derive(Clone, Copy)]
pub struct Division {
    pub quotient: Poly,
    pub remainder: Poly,
}

// One coefficient of a + m b.
fn plus_product(q: Prime, x: u32, m: u32, y: u32) -> u32
    ensures { result ≡ (x + m * y) % modulus_of q }
{
    field::reduce(q, x as u64 + m as u64 * y as u64)
}

// a - k u^n b, in place of a; returns how many entries it wrote.
fn cancel(q: Prime, a: &mut [u32; 32], k: u32, n: usize, b: Poly, lb: usize) -> usize
    requires { (n + lb ≤ 32) × (k < modulus_of q) × Bounded (modulus_of q) 32 a.old × Bounded (modulus_of q) lb b.c × (length a.old ≡ 32) }
    ensures { (result ≡ lb) × (a.new ≡ cancelled_of (modulus_of q) k n b.c a.old) × (length a.new ≡ 32) }
{
    let m = field::modulus(q) - k;
    for j in 0..lb {
        let place = n + j;
        a[place] = plus_product(q, a[place], m, b.c[j]);
    }
    lb
}

// Long division of an a with at most la coefficients by a b of length lb. Each turn takes away the coefficient of u^(top - 1).
pub fn divide(q: Prime, a: Poly, la: usize, b: Poly, lb: usize) -> Division
    requires { (la ≤ 32) × Bounded (modulus_of q) la a.c × (lb ≡ length_of b.c) × (0 < lb) × Bounded (modulus_of q) lb b.c }
    ensures { (result.quotient.c ≡ quotient_of (modulus_of q) a.c b.c) × Bounded (modulus_of q) (la + 1 - lb) result.quotient.c
        × (result.remainder.c ≡ remainder_of (modulus_of q) a.c b.c) × Bounded (modulus_of q) (lb - 1) result.remainder.c }
{
    let inverse = reciprocal::nonzero_reciprocal(q, b.c[lb - 1]);
    let mut quotient = poly::zero();
    let mut remainder = a.c;
    for top in (lb..la + 1).rev() {
        let k = field::product(q, remainder[top - 1], inverse);
        quotient.c[top - lb] = k;
        cancel(q, &mut remainder, k, top - lb, b, lb);
    }
    Division {
        quotient,
        remainder: Poly { c: remainder },
    }
}
