// Paper 02, item 1: the coefficients of g and the f's, read as an answer lists them behind its word.
ghost use Rattle.std.specs.Prelude.{ℕ, ◌+◌, ◌*◌, ◌≤◌, ◌<◌, ◌≡◌, length, replicate, is_err, is_none, IfSome};
ghost use Rattle.format.specs.Bounds.{FitsPolynomials};
ghost use Rattle.poly.specs.Vectors.{coefficients_at};
ghost use Rattle.answer.specs.Coefficients.{coefficient_length_of, polynomial_from, denominator_of, numerator_of, any_too_large, vector_in};

use format::Bounds;
use poly::{Poly, Vector};
use rows::number_from;

// Whether one of the coefficients is p or more.
fn any_too_large(bytes: &[u8], b: Bounds) -> bool
    ensures { result ≡ any_too_large b bytes.now }
{
    let p = field::modulus(b.prime);
    (0..bytes.len() / 2).any(|k| p <= number_from(bytes, 2 * k))
}

// The polynomial of the count coefficients from a byte on.
fn polynomial(bytes: &[u8], from: usize, count: usize) -> Poly
    requires { (count ≤ 32) × (from + 2 * count ≤ length bytes.now) }
    ensures { result.c ≡ polynomial_from bytes.now from count }
{
    let mut a = poly::zero();
    for k in 0..count {
        a.c[k] = number_from(bytes, from + 2 * k);
    }
    a
}

// All of g and the f's, whatever the coefficients are.
fn vector(bytes: &[u8], b: Bounds) -> Vector
    requires { FitsPolynomials b × (length bytes.now ≡ coefficient_length_of b) }
    ensures denominator { result.g.c ≡ denominator_of b bytes.now }
    ensures numerators { (i : ℕ) → i < b.outputs → coefficients_at result.f i ≡ numerator_of b bytes.now i }
    ensures others { (i : ℕ) → b.outputs ≤ i → i < 4 → coefficients_at result.f i ≡ replicate 32 0 }
{
    let front = b.dg + 1;
    let g = polynomial(bytes, 0, front);
    let mut f = [poly::zero(); 4];
    let mut from = 2 * front;
    for i in 0..b.outputs {
        let count = b.numerator_bound(i) + 1;
        f[i] = polynomial(bytes, from, count);
        from += 2 * count;
    }
    Vector { g, f }
}

// All of g and the f's: `Ok` where every coefficient is below p, and the same vector as `Err` where one is not.
pub fn read_vector(bytes: &[u8], b: Bounds) -> Result<Vector, Vector>
    requires { FitsPolynomials b × (length bytes.now ≡ coefficient_length_of b) }
    ensures denominator { (vector_in result).g.c ≡ denominator_of b bytes.now }
    ensures numerators { (i : ℕ) → i < b.outputs → coefficients_at (vector_in result).f i ≡ numerator_of b bytes.now i }
    ensures others { (i : ℕ) → b.outputs ≤ i → i < 4 → coefficients_at (vector_in result).f i ≡ replicate 32 0 }
    ensures range { is_err result ≡ any_too_large b bytes.now }
{
    let v = vector(bytes, b);
    if any_too_large(bytes, b) {
        Err(v)
    } else {
        Ok(v)
    }
}

// The same, and nothing where a coefficient is p or more.
pub fn checked_vector(bytes: &[u8], b: Bounds) -> Option<Vector>
    requires { FitsPolynomials b × (length bytes.now ≡ coefficient_length_of b) }
    ensures denominator { IfSome result (λ v. v.g.c ≡ denominator_of b bytes.now) }
    ensures numerators { IfSome result (λ v. (i : ℕ) → i < b.outputs → coefficients_at v.f i ≡ numerator_of b bytes.now i) }
    ensures others { IfSome result (λ v. (i : ℕ) → b.outputs ≤ i → i < 4 → coefficients_at v.f i ≡ replicate 32 0) }
    ensures range { is_none result ≡ any_too_large b bytes.now }
{
    read_vector(bytes, b).ok()
}
