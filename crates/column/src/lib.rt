// The right-hand sides of one output's conditions: the values of its numerator over the denominator found so far.
#![tactic(auto)]

ghost use Rattle.std.specs.Prelude.{get_or, ℕ, ◌+◌, ◌≤◌, ◌<◌, not, ◌&&◌, ◌≡◌, eqb, length};
ghost use Rattle.format.specs.Bounds.{EnoughRows};
ghost use Rattle.field.specs.Primes.{modulus_of};
ghost use Rattle.poly.specs.Coefficients.{Bounded};
ghost use Rattle.evaluation.specs.Values.{Formed};
ghost use Rattle.pairs.specs.Pairs.{active_count};
ghost use Rattle.column.specs.Columns.{ColumnFor};

use format::Bounds;
use marked_rows::Table;
use poly::Poly;

// The right-hand sides of one output's conditions, and how many of the rows ask something.
#[derive(Clone, Copy)]
pub struct RightSides {
    pub z: [u32; 32],
    pub active: usize,
}

// Whether a row of weight c with the right-hand side z asks something: else it is idle.
fn asks(c: u16, z: u32) -> bool
    ensures { result ≡ not (eqb c 0 && eqb z 0) }
{
    c != 0 || z != 0
}

// How many of the rows ask something.
fn active_rows(weights: &[u16; 32], z: &[u32; 32], rows: usize) -> usize
    requires { rows ≤ 32 }
    ensures { result ≡ active_count weights.now z.now rows }
{
    weights[..rows]
        .iter()
        .zip(&z[..rows])
        .filter(|(c, z)| asks(**c, **z))
        .count()
}

// g(x) y at every row, y the value of output i: the values of output i's numerator over the denominator found so far. The points are
// given by their forms xs. Rows of weight 0 whose right-hand side is 0 are idle, and the others are counted.
pub fn column(b: Bounds, xs: &[u16; 32], table: &Table, i: usize, g: &Poly) -> RightSides
    requires { EnoughRows b × (i < 4) × Bounded (modulus_of b.prime) (b.dg + 1) g.now.c × Formed (modulus_of b.prime) xs.now b.rows }
    ensures { ColumnFor b xs.now table.now.values i g.now.c result.z × ((k : ℕ) → get_or result.z k 0 < modulus_of b.prime)
        × (result.active ≡ active_count table.now.weights result.z b.rows) }
{
    let denominators = evaluation::values(b.prime, xs, b.rows, b.dg + 1, *g);
    let gs = denominators.v;
    let mut z = [0u32; 32];
    for l in 0..b.rows {
        z[l] = field::product(b.prime, u32::from(gs[l]), table.values[l * 4 + i]);
    }
    RightSides {
        z,
        active: active_rows(&table.weights, &z, b.rows),
    }
}
