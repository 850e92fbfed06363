// Products of polynomials modulo one of the four primes, coefficient by coefficient.
ghost use Rattle.std.specs.Prelude.{◌+◌, ◌-◌, ◌%◌, ◌≤◌, ◌<◌, ◌≡◌};
ghost use Rattle.field.specs.Primes.{modulus_of};
ghost use Rattle.poly.specs.Coefficients.{Bounded};
ghost use Rattle.poly.specs.Operations.{product_at, product_of};

use crate::Poly;
use field::Prime;

// One coefficient of the product: the sum over the terms that can be non-zero. It fits 64 bits, so one remainder is enough.
fn product_coefficient(q: Prime, a: Poly, la: usize, b: Poly, lb: usize, k: usize) -> u32
    requires { (k < 32) × Bounded (modulus_of q) la a.c × Bounded (modulus_of q) lb b.c }
    ensures { result ≡ product_at a.c b.c k % modulus_of q }
{
    let mut acc: u64 = 0;
    for i in (k + 1).saturating_sub(lb)..la.min(k + 1) {
        acc += a.c[i] as u64 * b.c[k - i] as u64;
    }
    field::reduce(q, acc)
}

// a b, for an a of la and a b of lb coefficients.
pub fn product(q: Prime, a: Poly, la: usize, b: Poly, lb: usize) -> Poly
    requires { (la + lb ≤ 33) × Bounded (modulus_of q) la a.c × Bounded (modulus_of q) lb b.c }
    ensures { (result.c ≡ product_of (modulus_of q) a.c b.c) × Bounded (modulus_of q) (la + lb - 1) result.c }
{
    let mut r = crate::zero();
    for k in 0..(la + lb).saturating_sub(1) {
        r.c[k] = product_coefficient(q, a, la, b, lb, k);
    }
    r
}
