// Paper 02, item 1: the rows of a trial job, computed from g and the f's and written as bytes.
ghost use Rattle.std.specs.Prelude.{ℕ, ◌+◌, ◌*◌, ◌%◌, ◌≤◌, ◌<◌, ◌≡◌, cond, eqb, length, get_or};
ghost use Rattle.field.specs.Primes.{modulus_of};
ghost use Rattle.format.specs.Bounds.{prime_of};
ghost use Rattle.header.specs.Header.{FitsFields};
ghost use Rattle.poly.specs.Coefficients.{Bounded};
ghost use Rattle.poly.specs.Operations.{value_of};
ghost use Rattle.poly.specs.Vectors.{coefficients_at};
ghost use Rattle.lists.specs.Search.{first_below};
ghost use Rattle.answer.specs.Bytes.{coefficient_bytes};
ghost use Rattle.lists.specs.Overwriting.{spliced};
ghost use Rattle.spoiling.specs.Spoiling.{number_in};
ghost use Rattle.trial.specs.Rows.{trial_number, trial_numbers};

use field::Prime;
use format::Bounds;
use poly::{Poly, Vector};

// The value of a at x.
fn value_at(q: Prime, x: usize, a: Poly) -> u32
    requires { (x < 32) × Bounded (modulus_of q) 32 a.c }
    ensures { result ≡ value_of (modulus_of q) x a.c }
{
    let points = [x as u32; 32];
    let forms = evaluation::forms(q, &points, 1);
    let xs = forms.v;
    let values = evaluation::values(q, &xs, 1, 32, a);
    values.v[0] as u32
}

// The number whose product with g's value is f's value; 0 at a pole.
fn quotient(q: Prime, numerator: u32, denominator: u32) -> u32
    requires { (numerator < modulus_of q) × (denominator < modulus_of q) }
    ensures { result ≡ cond (eqb denominator 0) 0 (number_in (first_below (modulus_of q) (λ y. eqb numerator (denominator * y % modulus_of q)))) }
{
    if denominator == 0 {
        return 0;
    }
    field::product(q, numerator, reciprocal::nonzero_reciprocal(q, denominator))
}

// The number in row r and a column; by holds what is added to the first values.
fn number_at(q: Prime, v: &Vector, by: &[u32; 32], r: usize, column: usize) -> u32
    requires { (r < 32) × (column ≤ 4) × Bounded (modulus_of q) 32 v.now.g.c × ((i : ℕ) → i < column → Bounded (modulus_of q) 32 (coefficients_at v.now.f i))
        × (get_or by.now r 0 < modulus_of q) }
    ensures { result ≡ trial_number (modulus_of q) (coefficients_at v.now.f) v.now.g.c (λ i. get_or by.now i 0) r column }
{
    if column == 0 {
        return r as u32;
    }
    let y = quotient(q, value_at(q, r, v.f[column - 1]), value_at(q, r, v.g));
    if column == 1 {
        return (y + by[r]) % field::modulus(q);
    }
    y
}

// Writes the rows behind a header, from the byte called start on, and returns how many bytes they have.
pub fn put_rows(area: &mut [u8], start: usize, b: Bounds, v: &Vector, by: &[u32; 32]) -> usize
    requires { FitsFields b × (start + 2 * (b.rows * (1 + b.outputs)) ≤ length area.old) × Bounded (prime_of b) 32 v.now.g.c
        × ((i : ℕ) → i < b.outputs → Bounded (prime_of b) 32 (coefficients_at v.now.f i)) × ((r : ℕ) → get_or by.now r 0 < prime_of b) }
    ensures { (result ≡ 2 * (b.rows * (1 + b.outputs)))
        × (area.new ≡ spliced start (coefficient_bytes (trial_numbers (prime_of b) (coefficients_at v.now.f) v.now.g.c (λ i. get_or by.now i 0) b.rows b.outputs) (b.rows * (1 + b.outputs))) area.old) }
{
    let width = 1 + b.outputs;
    let count = b.rows * width;
    let mut written = 0;
    for k in 0..count {
        let number = number_at(b.prime, v, by, k / width, k % width);
        written += answer::put_number(area, start + written, number);
    }
    written
}
