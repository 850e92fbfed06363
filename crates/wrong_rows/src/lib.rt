// Which rows of a table are wrong for an answer (paper 01, "The object", and paper 02, item 6).
#![tactic(auto)]

ghost use Rattle.std.specs.Prelude.{get_or, ℕ, ◌+◌, ◌*◌, ◌%◌, ◌≤◌, ◌<◌, ◌≡◌, not, List, eqb};
ghost use Rattle.field.specs.Primes.{modulus_of};
ghost use Rattle.format.specs.Bounds.{numerator_bound_of, FitsPolynomials};
ghost use Rattle.poly.specs.Coefficients.{Bounded};
ghost use Rattle.poly.specs.Vectors.{coefficients_at};
ghost use Rattle.evaluation.specs.Values.{forms_of, values_of, Formed};
ghost use Rattle.row_mask.specs.Word.{word_of};
ghost use Rattle.problem.specs.Answers.{Within};
ghost use Rattle.wrong_rows.specs.Rows.{meets_output, wrong_row_at};

use field::Prime;
use format::Bounds;
use marked_rows::Table;
use poly::{Poly, Vector};

// One output of a row with weight c, by the values of its numerator and of g at the row's point. Nothing is divided,
// so that a value of 0 is no exception at a root of g.
fn output_is_wrong(q: Prime, c: u16, numerator: u16, denominator: u16, y: u32) -> bool
    ensures { result ≡ not (eqb (c * numerator) (denominator * y % modulus_of q)) }
{
    u32::from(c) * u32::from(numerator) != field::product(q, u32::from(denominator), y)
}

// The word of the rows where output i is wrong, f its numerator. xs holds the forms of the points, gs the values of g.
fn wrong_values(b: Bounds, i: usize, f: &Poly, xs: &[u16; 32], gs: &[u16; 32], table: &Table) -> u32
    requires { (b.rows ≤ 32) × (i < 4) × (numerator_bound_of b i ≤ 31) × Bounded (modulus_of b.prime) (numerator_bound_of b i + 1) f.now.c
        × Formed (modulus_of b.prime) xs.now b.rows }
    ensures { (points g : List ℕ) → xs.now ≡ forms_of (modulus_of b.prime) points b.rows
        → gs.now ≡ values_of (modulus_of b.prime) points b.rows g
        → result ≡ word_of b.rows (λ r. not (meets_output (modulus_of b.prime) (get_or table.now.weights r 0) (get_or points r 0) g f.now.c (get_or table.now.values (r * 4 + i) 0))) }
{
    let numerators = evaluation::values(b.prime, xs, b.rows, b.numerator_bound(i) + 1, *f);
    let fs = numerators.v;
    let mut word = 0;
    for r in 0..b.rows {
        let y = table.values[r * 4 + i];
        let wrong = output_is_wrong(b.prime, table.weights[r], fs[r], gs[r], y);
        word = row_mask::with_row(word, r, wrong);
    }
    word
}

// The word of the wrong rows. One bad value makes the whole row wrong.
pub fn wrong_rows(b: Bounds, table: &Table, v: &Vector) -> u32
    requires { (b.rows ≤ 32) × FitsPolynomials b × Within b (coefficients_at v.now.f) v.now.g.c }
    ensures { result ≡ word_of b.rows (wrong_row_at b table.now.points table.now.weights table.now.values (coefficients_at v.now.f) v.now.g.c) }
{
    let forms = evaluation::forms(b.prime, &table.points, b.rows);
    let xs = forms.v;
    let denominators = evaluation::values(b.prime, &xs, b.rows, b.dg + 1, v.g);
    let gs = denominators.v;
    let mut word = 0;
    for i in 0..b.outputs {
        word |= wrong_values(b, i, &v.f[i], &xs, &gs, table);
    }
    word
}
