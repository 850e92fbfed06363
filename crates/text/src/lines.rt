// The lines of an answer's text, read from the area that holds its bytes.
ghost use Rattle.std.specs.Prelude.{◌+◌, ◌-◌, ◌*◌, ◌^◌, ◌≤◌, ◌<◌, ◌≡◌};
ghost use Rattle.format.specs.Numbers.{word_from};
ghost use Rattle.format.specs.Bounds.{FitsPolynomials};
ghost use Rattle.row_mask.specs.Word.{is_set};
ghost use Rattle.text.specs.Drafts.{extended};
ghost use Rattle.text.specs.Lines.{longest_answer, row_items, coefficient_from, degree_within, coefficients_line, output_line_from, output_lines, margin_line};

use crate::draft::Draft;
use cursor::number_or_zero;
use format::Bounds;

// The word of wrong rows.
pub fn read_word(area: &[u8]) -> u32
    ensures { result ≡ word_from area.now }
{
    number_or_zero(area, 0) * 65536 + number_or_zero(area, 2)
}

// The word without the bit of a wrong row.
fn without_row(word: u32, row: u32) -> u32
    requires { (row < 32) × (2 ^ (31 - row) ≤ word) }
    ensures { result ≡ word - 2 ^ (31 - row) }
{
    word - (1 << (31 - row))
}

// The wrong rows, rising: the first one, its bit cleared, and again.
pub fn put_rows(draft: &mut Draft, word: u32)
    ensures { draft.new ≡ extended draft.old (row_items 32 0 (is_set word)) }
{
    let mut rest = word;
    while rest != 0 {
        let row = row_mask::first_wrong(rest);
        draft.put_item(row);
        rest = without_row(rest, row);
    }
}

// A polynomial of an answer: its coefficients stand in the area from a byte on, up to the degree bound.
#[derive(Clone, Copy)]
pub struct StoredPolynomial<'a> {
    pub area: &'a [u8],
    pub start: usize,
    pub bound: usize,
    ghost low: { bound < 32 },
    ghost inside: { start + 2 * (bound + 1) ≤ longest_answer },
}

impl StoredPolynomial<'_> {
    fn coefficient(&self, k: usize) -> u32
        requires { k ≤ self.now.bound }
        ensures { result ≡ coefficient_from self.now.area.now self.now.start k }
    {
        number_or_zero(self.area, self.start + 2 * k)
    }

    // The true degree; 0 for the zero polynomial.
    #[tactic(auto, using(crate::proofs::Polynomials::degree_here, crate::proofs::Polynomials::degree_lower))]
    fn degree(&self) -> usize
        ensures value { result ≡ degree_within (coefficient_from self.now.area.now self.now.start) self.now.bound }
        ensures within { result ≤ self.now.bound }
    {
        for k in (1..=self.bound).rev() {
            if self.coefficient(k) != 0 {
                return k;
            }
        }
        0
    }
}

// The coefficients up to the true degree, and the line's end.
pub fn put_polynomial(draft: &mut Draft, polynomial: &StoredPolynomial)
    ensures { draft.new ≡ extended draft.old (coefficients_line (coefficient_from polynomial.now.area.now polynomial.now.start) polynomial.now.bound) }
{
    for k in 0..polynomial.degree() + 1 {
        draft.put_item(polynomial.coefficient(k));
    }
    draft.put_byte(b'\n');
}

// The line of output i, counted from 0.
fn put_output(draft: &mut Draft, i: u32, polynomial: &StoredPolynomial)
    requires { i < 4 }
    ensures { draft.new ≡ extended draft.old (output_line_from polynomial.now.area.now i polynomial.now.start polynomial.now.bound) }
{
    draft.put_byte(b'f');
    draft.put_decimal(i + 1);
    put_polynomial(draft, polynomial);
}

// The lines of all outputs.
pub fn put_outputs(draft: &mut Draft, area: &[u8], b: Bounds)
    requires { FitsPolynomials b }
    ensures { draft.new ≡ extended draft.old (output_lines b area.now b.outputs) }
{
    let mut start = 4 + 2 * (b.dg + 1);
    for i in 0..b.outputs {
        let bound = b.numerator_bound(i);
        put_output(draft, i as u32, &StoredPolynomial { area, start, bound });
        start += 2 * (bound + 1);
    }
}

// Paper 02, item 7: the last line.
pub fn put_margin(draft: &mut Draft, margin: u32)
    ensures { draft.new ≡ extended draft.old (margin_line margin) }
{
    draft.put(b"margin");
    draft.put_item(margin);
    draft.put_byte(b'\n');
}
