// The values of a polynomial at all points of a table of rows at once, by Horner's rule on whole arrays.
#![tactic(auto)]

ghost use Rattle.std.specs.Prelude.{◌≤◌, ◌≡◌};
ghost use Rattle.field.specs.Primes.{modulus_of};
ghost use Rattle.poly.specs.Coefficients.{Bounded};
ghost use Rattle.evaluation.specs.Values.{forms_of, Formed, Evaluated};

use field::Prime;
use lanes::Modulus;
use poly::Poly;

// A residue for each of up to 32 rows, in the order of the rows.
#[derive(Clone, Copy)]
pub struct PerRow {
    pub v: [u16; 32],
}

// Montgomery's forms of the points, by which the polynomials are evaluated: once for all of them.
pub fn forms(q: Prime, points: &[u32; 32], rows: usize) -> PerRow
    requires { rows ≤ 32 }
    ensures { result.v ≡ forms_of (modulus_of q) points.now rows }
{
    let end = (rows + 7) / 8 * 8;
    let mut r = PerRow { v: [0u16; 32] };
    for l in 0..end {
        let x = montgomery::as_factor(q, points[l]);
        r.v[l] = x.form;
    }
    r
}

// The values of a, whose coefficients are zero from n on, at the points whose forms are xs.
pub fn values(q: Prime, xs: &[u16; 32], rows: usize, n: usize, a: Poly) -> PerRow
    requires { (rows ≤ 32) × (n ≤ 32) × Bounded (modulus_of q) n a.c × Formed (modulus_of q) xs.now rows }
    ensures { Evaluated (modulus_of q) xs.now rows a.c result.v }
{
    let m = Modulus::new(q);
    let mut v = [0u16; 32];
    for k in (0..n).rev() {
        lane_horner::horner(&m, rows, xs, &mut v, a.c[k] as u16);
    }
    PerRow { v }
}
