// A polynomial times a number, modulo one of the four primes.
ghost use Rattle.std.specs.Prelude.{◌≤◌, ◌≡◌};
ghost use Rattle.field.specs.Primes.{modulus_of};
ghost use Rattle.poly.specs.Coefficients.{Bounded};
ghost use Rattle.poly.specs.Operations.{scaled_of};

use crate::Poly;
use field::Prime;

// c a, where all coefficients of a from n on are zero.
pub fn scaled(q: Prime, n: usize, c: u32, a: Poly) -> Poly
    requires { (n ≤ 32) × Bounded (modulus_of q) n a.c }
    ensures { (result.c ≡ scaled_of (modulus_of q) c a.c) × Bounded (modulus_of q) n result.c }
{
    let mut r = crate::zero();
    for k in 0..n {
        r.c[k] = field::product(q, c, a.c[k]);
    }
    r
}
