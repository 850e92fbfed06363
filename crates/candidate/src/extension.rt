// A candidate with one output more: its fraction a / h, and every earlier numerator times h.
ghost use Rattle.format.specs.Bounds.{EnoughRows};
ghost use Rattle.std.specs.Prelude.{◌≤◌, ◌<◌, ◌≡◌, ◌↔◌, IfSome, IsTrue, slice_index};
ghost use Rattle.field.specs.Primes.{modulus_of};
ghost use Rattle.poly.specs.Coefficients.{Bounded};
ghost use Rattle.poly.specs.Operations.{length_of};
ghost use Rattle.candidate.specs.Extensions.{raised_at, raised_below, extended_of, Fitting};

use format::Bounds;
use poly::{Poly, Vector};

// The numerator of output j times h; None if that is too long.
fn raised_at(b: Bounds, v: &Vector, j: usize, h: &Poly, lh: usize) -> Option<Vector>
    requires { EnoughRows b × Fitting b v.now × (j < 4) × (lh ≡ length_of h.now.c) × (lh ≤ 32) × Bounded (modulus_of b.prime) lh h.now.c }
    ensures value { result ≡ raised_at b h.now.c j v.now }
    ensures fitting { IfSome result (Fitting b) }
{
    let bound = b.numerator_bound(j);
    let l = poly::length(bound + 1, v.f[j]);
    if 0 < l && bound + 2 < l + lh {
        return None;
    }
    let mut r = *v;
    r.f[j] = poly::product(b.prime, v.f[j], l, *h, lh);
    Some(r)
}

// The numerators of the first i outputs times h; None if one is too long.
fn raised(b: Bounds, v: &Vector, i: usize, h: &Poly, lh: usize) -> Option<Vector>
    requires { EnoughRows b × Fitting b v.now × (i ≤ 4) × (lh ≡ length_of h.now.c) × (lh ≤ 32) × Bounded (modulus_of b.prime) lh h.now.c }
    ensures value { result ≡ raised_below b h.now.c i v.now }
    ensures fitting { IfSome result (Fitting b) }
{
    let mut r = *v;
    for j in 0..i {
        r = raised_at(b, &r, j, h, lh)?;
    }
    Some(r)
}

// Whether h, of length lh, is the polynomial 1.
fn is_one(h: &Poly, lh: usize) -> bool
    ensures { IsTrue result ↔ ((lh ≡ 1) × (slice_index h.now.c 0 ≡ 1)) }
{
    lh == 1 && h.c[0] == 1
}

// With a / h for output i, in units of 1 / g; from n on all coefficients of a and h are zero. None if a polynomial is too long. Where h is 1, g and
// the earlier numerators stay as they are.
pub fn extended(b: Bounds, v: Vector, i: usize, n: usize, a: &Poly, h: &Poly) -> Option<Vector>
    requires { EnoughRows b × Fitting b v × (i < 4) × (n ≤ 32) × Bounded (modulus_of b.prime) n a.now.c × Bounded (modulus_of b.prime) n h.now.c }
    ensures value { result ≡ extended_of b i a.now.c h.now.c v }
    ensures fitting { IfSome result (Fitting b) }
{
    let la = poly::length(n, *a);
    let lh = poly::length(n, *h);
    if b.numerator_bound(i) + 1 < la {
        return None;
    }
    if is_one(h, lh) {
        let mut r = v;
        r.f[i] = *a;
        return Some(r);
    }
    let lg = poly::length(b.dg + 1, v.g);
    if b.dg + 2 < lg + lh {
        return None;
    }
    let mut r = raised(b, &v, i, h, lh)?;
    r.g = poly::product(b.prime, v.g, lg, *h, lh);
    r.f[i] = *a;
    Some(r)
}
