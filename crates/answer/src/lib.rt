// An answer as bytes, written and read (paper 01, "The recovered sheet").
#![tactic(auto)]

pub mod coefficients;

ghost use Rattle.std.specs.Prelude.{◌+◌, ◌*◌, ◌≤◌, ◌≡◌, length};
ghost use Rattle.format.specs.Bounds.{answer_length_of, FitsPolynomials};
ghost use Rattle.poly.specs.Vectors.{coefficients_at};
ghost use Rattle.answer.specs.Bytes.{two_bytes, four_bytes, coefficient_bytes, output_bytes, answer_bytes};
ghost use Rattle.lists.specs.Overwriting.{overwritten, spliced};

pub use coefficients::{checked_vector, read_vector};
use format::Bounds;
use poly::{Poly, Vector};

// Writes these bytes to the area's start and returns how many there are.
pub fn put_bytes(area: &mut [u8], bytes: &[u8]) -> usize
    requires { length bytes.now ≤ length area.old }
    ensures { (result ≡ length bytes.now) × (area.new ≡ overwritten bytes.now area.old) }
{
    for (k, byte) in bytes.iter().enumerate() {
        area[k] = *byte;
    }
    bytes.len()
}

// Writes the word to the area's start and returns how many bytes it has.
fn put_word(area: &mut [u8], word: u32) -> usize
    requires { 4 ≤ length area.old }
    ensures { (result ≡ 4) × (area.new ≡ overwritten (four_bytes word) area.old) }
{
    put_bytes(area, &word.to_be_bytes())
}

// Writes a 16-bit number from a place on and returns how many bytes it has.
pub fn put_number(area: &mut [u8], at: usize, value: u32) -> usize
    requires { at + 2 ≤ length area.old }
    ensures { (result ≡ 2) × (area.new ≡ spliced at (two_bytes value) area.old) }
{
    area[at..at + 2].copy_from_slice(&value.to_be_bytes()[2..]);
    2
}

// Writes the first coefficients of a polynomial from a place on and returns how many bytes they have.
fn put_coefficients(area: &mut [u8], at: usize, a: &Poly, count: usize) -> usize
    requires { (count ≤ 32) × (at + 2 * count ≤ length area.old) }
    ensures { (result ≡ 2 * count)
        × (area.new ≡ spliced at (coefficient_bytes a.now.c count) area.old) }
{
    let mut written = 0;
    for coefficient in &a.c[..count] {
        written += put_number(area, at + written, *coefficient);
    }
    written
}

// Writes the numerators from a place on and returns how many bytes they have.
fn put_outputs(area: &mut [u8], at: usize, b: Bounds, f: &[Poly; 4]) -> usize
    requires { (FitsPolynomials b) × (at + length (output_bytes b (coefficients_at f.now) b.outputs) ≤ length area.old) }
    ensures { (result ≡ length (output_bytes b (coefficients_at f.now) b.outputs))
        × (area.new ≡ spliced at (output_bytes b (coefficients_at f.now) b.outputs) area.old) }
{
    let mut written = 0;
    for i in 0..b.outputs {
        written += put_coefficients(area, at + written, &f[i], b.numerator_bound(i) + 1);
    }
    written
}

// Writes the answer to the area's start and returns how many bytes it wrote.
pub fn write(area: &mut [u8], b: Bounds, word: u32, v: &Vector) -> usize
    requires { (FitsPolynomials b) × (answer_length_of b ≤ length area.old) }
    ensures { (result ≡ answer_length_of b)
        × (area.new ≡ overwritten (answer_bytes b word v.now.g.c (coefficients_at v.now.f)) area.old) }
{
    let first = put_word(area, word);
    let front = first + put_coefficients(area, first, &v.g, b.dg + 1);
    front + put_outputs(area, front, b, &v.f)
}
