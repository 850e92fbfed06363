// One output under all rows: a pair of polynomials that meets the condition of every row, found one row at a time.
// docs/METHOD.md, section 1: there are two pairs, and after the rows one of them is (a, b), not both zero, with
// c a(x) = z b(x) at every row (x, z) of weight c, a of degree at most A and b of degree at most B, where A + B + 1 rows at most ask something.
// The discrepancies c a(x) - z b(x) of both pairs are kept for all rows and changed as the pairs are, so that no polynomial is evaluated.
#![tactic(auto)]

ghost use Rattle.std.specs.Prelude.{ℕ, ◌+◌, ◌-◌, ◌%◌, ◌≤◌, ◌<◌, ◌≡◌, get_or};
ghost use Rattle.field.specs.Primes.{modulus_of};
ghost use Rattle.poly.specs.Coefficients.{Stored};
ghost use Rattle.pairs.specs.Pairs.{PairBounded, Conditions, solution_of};
ghost use Rattle.evaluation.specs.Values.{forms_of};
ghost use Rattle.pairs.specs.Held.{pair_of};
ghost use Rattle.interpolation.specs.Start.{pair_at_start, step_row};

use field::Prime;
use lanes::Modulus;
use montgomery::Factor;
use pairs::{Pair, PairArrays, PairState, RowStep, step};
use poly::Poly;

// - z at each row.
fn negations(p: u16, z: &[u32; 32], rows: usize) -> [u16; 32]
    requires { (rows ≤ 32) × ((k : ℕ) → get_or z.now k 0 < p) }
    ensures { ((k : ℕ) → k < rows → get_or result k 0 ≡ (0 + (p - get_or z.now k 0)) % p) × Stored p result }
{
    let mut r = [0u16; 32];
    for k in 0..rows {
        r[k] = montgomery::difference(p, 0, z[k] as u16);
    }
    r
}

// The pair of the constants a and b with the number e, before the first row.
fn started(a: u16, b: u16, e: usize, d: [u16; 32]) -> PairArrays
    ensures { result ≡ pair_at_start a b e d }
{
    let mut s = PairArrays {
        state: PairState {
            e,
            n: 1,
            coefficients: 0,
            discrepancies: 0,
        },
        a: [0; 32],
        b: [0; 32],
        d,
    };
    s.a[0] = a;
    s.b[0] = b;
    s
}

// Row k.
fn row(q: Prime, m: &Modulus, points: &[u32; 32], xs: &[u16; 32], rows: usize, k: usize) -> RowStep
    requires { k < 32 }
    ensures { result ≡ step_row q m.now points.now xs.now rows k }
{
    let form = xs[k];
    RowStep {
        prime: q,
        index: k,
        rows,
        point: points[k],
        x: Factor {
            form,
            low: montgomery::low(form, m.inverse[k]),
        },
    }
}

// Kept, as in `negations`: a loop by index. It is vector code; an array's `map` moves each entry as an Option, and a job of 4 rows took 1.4 times as long.
fn widened(a: &[u16; 32]) -> Poly
    ensures { result.c ≡ a.now }
{
    let mut r = poly::zero();
    for k in 0..32 {
        r.c[k] = a[k] as u32;
    }
    r
}

fn paired(s: &PairArrays) -> Pair
    ensures { result ≡ pair_of s.now }
{
    Pair {
        a: widened(&s.a),
        b: widened(&s.b),
        e: s.state.e,
    }
}

// The pair with the smaller number after all rows, from (1, 0) and (0, 1). Beside the points stand their forms, which all outputs share, and the rows' weights.
pub fn solution(
    q: Prime,
    points: &[u32; 32],
    xs: &[u16; 32],
    weights: &[u16; 32],
    z: &[u32; 32],
    rows: usize,
    bound_a: usize,
    bound_b: usize,
) -> Pair
    requires { Conditions (modulus_of q) points.now weights.now z.now rows bound_a bound_b × (xs.now ≡ forms_of (modulus_of q) points.now rows) }
    ensures { (result ≡ solution_of (modulus_of q) points.now weights.now z.now bound_a bound_b rows)
        × PairBounded (modulus_of q) (rows + 1) result }
{
    let m = Modulus::new(q);
    let mut first = started(1, 0, bound_b, *weights);
    let mut second = started(0, 1, bound_a, negations(m.p[0], z, rows));
    for k in 0..rows {
        step(
            &m,
            row(q, &m, points, xs, rows, k),
            xs,
            &mut first,
            &mut second,
        );
    }
    if first.state.e <= second.state.e {
        paired(&first)
    } else {
        paired(&second)
    }
}
