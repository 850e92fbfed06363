// Whether numerators f1, .., fn over g are reduced, decided by Euclid's rule over all of them (paper 01, "The object").
#![tactic(auto)]

ghost use Rattle.std.specs.Prelude.{ℕ, ◌≤◌, ◌<◌, ◌≡◌, true, ◌↔◌};
ghost use Rattle.field.specs.Primes.{modulus_of};
ghost use Rattle.poly.specs.Coefficients.{Stored};
ghost use Rattle.poly.specs.Vectors.{coefficients_at};
ghost use Rattle.problem.specs.Reduced.{Reduced};
ghost use Rattle.reduced.specs.CommonDivisor.{common_divisor_of};

use field::Prime;
use poly::{Poly, Vector};

// The greatest common divisor of g and the numerators: of the next numerator and the divisor found so far, one after the other.
fn common_divisor(q: Prime, outputs: usize, v: &Vector) -> Poly
    requires { (outputs ≤ 4) × Stored (modulus_of q) v.now.g.c × ((i : ℕ) → i < outputs → Stored (modulus_of q) (coefficients_at v.now.f i)) }
    ensures { result.c ≡ common_divisor_of (modulus_of q) (coefficients_at v.now.f) v.now.g.c outputs }
{
    let mut c = v.g;
    for i in 0..outputs {
        let lc = poly::length(32, c);
        c = euclid::gcd(q, v.f[i], 32, c, lc);
    }
    c
}

// Paper 01, "reduced": g is not zero, its leading coefficient is 1, and no polynomial of positive degree divides g and every fi.
pub fn is_reduced(q: Prime, outputs: usize, v: &Vector) -> bool
    requires { (outputs ≤ 4) × Stored (modulus_of q) v.now.g.c × ((i : ℕ) → i < outputs → Stored (modulus_of q) (coefficients_at v.now.f i)) }
    ensures { (result ≡ true) ↔ Reduced (modulus_of q) outputs (coefficients_at v.now.f) v.now.g.c }
{
    let lg = poly::length(32, v.g);
    if lg == 0 {
        return false;
    }
    if v.g.c[lg - 1] != 1 {
        return false;
    }
    let c = common_divisor(q, outputs, v);
    poly::length(32, c) == 1
}
