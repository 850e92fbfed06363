// The outputs one after the other: the only fractions over one denominator that an answer can have, or that there is no answer.
// docs/METHOD.md, section 2, has the argument.
#![tactic(auto)]

mod extension;

ghost use Rattle.format.specs.Bounds.{EnoughRows, prime_of};
ghost use Rattle.std.specs.Prelude.{◌+◌, ◌<◌, ◌≡◌, IfSome};
ghost use Rattle.evaluation.specs.Values.{forms_of};
ghost use Rattle.candidate.specs.Extensions.{Fitting};
ghost use Rattle.poly.specs.Coefficients.{Bounded};
ghost use Rattle.pairs.specs.Pairs.{PairBounded};
ghost use Rattle.column.specs.Columns.{column_of};
ghost use Rattle.candidate.specs.Candidates.{start_candidate, output_pair_of, next_of, candidate_after, RowsInRange};

use format::Bounds;
use marked_rows::Table;
use pairs::Pair;
use poly::{Poly, Vector};

fn start() -> Vector
    ensures { result ≡ start_candidate }
{
    let mut g = poly::zero();
    g.c[0] = 1;
    Vector {
        g,
        f: [poly::zero(); 4],
    }
}

// The pair of polynomials for output i over the denominator g. Beside the points stand their forms xs. Rows that ask nothing of the output do not
// count: silent ones, and those that report a pole where g is 0 already.
fn pair(b: Bounds, table: &Table, xs: &[u16; 32], i: usize, g: &Poly) -> Pair
    requires { EnoughRows b × RowsInRange b table.now.speaking table.now.points table.now.weights
        × (xs.now ≡ forms_of (prime_of b) table.now.points b.rows) × Bounded (prime_of b) (b.dg + 1) g.now.c × (i < 4) }
    ensures { (result ≡ output_pair_of b table.now.speaking table.now.points table.now.weights (column_of b table.now.points table.now.values i g.now.c))
        × PairBounded (prime_of b) (b.rows + 1) result }
{
    let bound_a = table.speaking - 1 - (b.dg + b.errors);
    let right = column::column(b, xs, table, i, g);
    let bound_b = right.active.saturating_sub(bound_a + 1);
    interpolation::solution(
        b.prime,
        &table.points,
        xs,
        &table.weights,
        &right.z,
        b.rows,
        bound_a,
        bound_b,
    )
}

// One output more; None if there is no answer.
fn next(b: Bounds, table: &Table, xs: &[u16; 32], i: usize, v: Vector) -> Option<Vector>
    requires { EnoughRows b × RowsInRange b table.now.speaking table.now.points table.now.weights
        × (xs.now ≡ forms_of (prime_of b) table.now.points b.rows) × Fitting b v × (i < 4) }
    ensures value { result ≡ next_of b table.now.speaking table.now.points table.now.weights table.now.values i v }
    ensures fitting { IfSome result (Fitting b) }
{
    let s = pair(b, table, xs, i, &v.g);
    let n = b.rows + 1;
    if poly::length(n, s.b) == 0 {
        return None;
    }
    let t = fraction::lowest_terms(b.prime, n, s.a, s.b);
    extension::extended(b, v, i, n, &t.numerator, &t.denominator)
}

// All outputs; None if there is no answer.
pub fn after_outputs(b: Bounds, table: &Table) -> Option<Vector>
    requires { EnoughRows b × RowsInRange b table.now.speaking table.now.points table.now.weights }
    ensures value { result ≡ candidate_after b table.now.speaking table.now.points table.now.weights table.now.values b.outputs }
    ensures fitting { IfSome result (Fitting b) }
{
    let forms = evaluation::forms(b.prime, &table.points, b.rows);
    let mut v = start();
    for i in 0..b.outputs {
        v = next(b, table, &forms.v, i, v)?;
    }
    Some(v)
}
