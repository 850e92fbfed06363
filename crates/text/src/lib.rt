// The text that the printing program prints, made in a lent buffer (paper 01, "The printing program").
#![tactic(auto)]

mod draft;
mod lines;

ghost use Rattle.std.specs.Prelude.{◌≤◌, ◌<◌, ◌≡◌, true, length, Some};
ghost use Rattle.format.specs.Bounds.{FitsPolynomials};
ghost use Rattle.text.specs.Drafts.{text_room, extended, Spells};
ghost use Rattle.text.specs.Text.{fits_of, recovered_text, refused_text, text_of, written_of, buffer_after, message_of};

use draft::Draft;
use format::{Bounds, Recovered, Refusal};
use lines::{StoredPolynomial, put_margin, put_outputs, put_polynomial, put_rows, read_word};
use std::error::Error;
use std::fmt;

// Why no text was written.
#[derive(Clone, Copy, Debug, PartialEq, Eq)]
pub enum TextError {
    // The buffer is shorter than the text.
    TooShort,
    // More than 4 outputs or a degree bound above 31: no job has such bounds.
    Malformed,
}

impl fmt::Display for TextError {
    ghost output = { λ e. Some (message_of e) };

    fn fmt<W: fmt::Write>(&self, f: &mut fmt::Formatter<W>) -> fmt::Result {
        match self {
            TextError::TooShort => write!(f, "the buffer is shorter than the text"),
            TextError::Malformed => write!(f, "no job has such bounds"),
        }
    }
}

impl Error for TextError {}

fn bounds_fit(b: Bounds) -> bool
    ensures { result ≡ fits_of b }
{
    b.outputs <= 4 && b.dg <= 31 && b.largest_bound(b.outputs) <= 31
}

// The text of an answer with this margin whose bytes stand in the area.
fn put_recovered(draft: &mut Draft, b: Bounds, wrong: u32, margin: u32, area: &[u8])
    requires { FitsPolynomials b }
    ensures text { draft.new ≡ extended draft.old (recovered_text b wrong margin area.now) }
    ensures short { length (recovered_text b wrong margin area.now) < text_room }
{
    draft.put(b"recovered ");
    draft.put_decimal(wrong);
    draft.put(b"\nwrong");
    put_rows(draft, read_word(area));
    draft.put(b"\ng");
    let denominator = StoredPolynomial {
        area,
        start: 4,
        bound: b.dg,
    };
    put_polynomial(draft, &denominator);
    put_outputs(draft, area, b);
    put_margin(draft, margin);
}

fn put_refused(draft: &mut Draft, number: u32, row: u32)
    ensures text { draft.new ≡ extended draft.old (refused_text number row) }
    ensures short { length (refused_text number row) < text_room }
{
    draft.put(b"refused ");
    draft.put_decimal(number);
    draft.put_item(row);
    draft.put(b"\n");
}

// A job that is neither recovered nor refused has no text yet.
fn text_of(
    b: Bounds,
    outcome: Option<Result<Recovered, Refusal>>,
    margin: u32,
    area: &[u8],
) -> Draft
    requires { FitsPolynomials b }
    ensures { Spells result (text_of b outcome margin area.now) }
{
    let mut draft = Draft::new();
    let Some(recovery) = outcome else {
        return draft;
    };
    match recovery {
        Ok(Recovered { bytes: _, wrong }) => put_recovered(&mut draft, b, wrong, margin, area),
        Err(Refusal { reason, row }) => put_refused(&mut draft, u32::from(reason), row),
    }
    draft
}

// Writes the text of an outcome to the buffer's start, with this margin where it is recovered, and returns how many bytes it has. The area
// holds the answer's bytes where there is one; a byte past its end is read as 0. Where no text is written, the buffer keeps its contents. A
// buffer of 1280 bytes has room for any text.
pub fn write_text(
    bounds: Bounds,
    outcome: Option<Result<Recovered, Refusal>>,
    margin: u32,
    area: &[u8],
    buffer: &mut [u8],
) -> Result<usize, TextError>
    ensures { (result ≡ written_of bounds outcome margin area.now (length buffer.old))
        × (buffer.new ≡ buffer_after bounds outcome margin area.now buffer.old)
        × (fits_of bounds ≡ true → length (text_of bounds outcome margin area.now) ≤ text_room) }
{
    if !bounds_fit(bounds) {
        return Err(TextError::Malformed);
    }
    let text = text_of(bounds, outcome, margin, area);
    let bytes = text.as_bytes();
    if buffer.len() < bytes.len() {
        return Err(TextError::TooShort);
    }
    Ok(answer::put_bytes(buffer, bytes))
}
