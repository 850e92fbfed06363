// Paper 02, item 1: trial jobs, whose answer is known, written from a header, coefficients, a start and the number of rows to be spoiled.
#![tactic(auto)]

mod job_rows;

ghost use Rattle.std.specs.Prelude.{ℕ, ◌+◌, ◌*◌, ◌≤◌, ◌<◌, ◌≡◌, length, OnOk, IfOk, IfErr};
ghost use Rattle.format.specs.Bounds.{prime_of};
ghost use Rattle.format.specs.Outcomes.{writing_report_of};
ghost use Rattle.answer.specs.Coefficients.{denominator_of, numerator_of};
ghost use Rattle.header.specs.Header.{header_of, FitsFields};
ghost use Rattle.lists.specs.Overwriting.{overwritten};
ghost use Rattle.poly.specs.Coefficients.{Bounded};
ghost use Rattle.poly.specs.Vectors.{coefficients_at};
ghost use Rattle.spoiling.specs.Spoiling.{added_by};
ghost use Rattle.trial.specs.Refusals.{outcome_before10};
ghost use Rattle.trial.specs.Trial.{job_bytes, Trial};

use answer::checked_vector;
use format::{Bounds, Reason, Refusal};
use header::{Header, job_length, read_header, rows_needed};
use header_rules::check_rules;
use poly::Vector;
use reduced::is_reduced;

#[tactic(auto, using(header::proofs::Fields::fits_polynomials), unfolding(crate::specs::Refusals::outcome_before10, crate::specs::Refusals::lengths_outcome, crate::specs::Refusals::numbers_outcome))]
// Refuses by the first test before 10 that applies, in their order; the vector of the coefficients where none does.
fn check(header: &[u8], read: Header, coefficients: &[u8], spoiled: u32) -> Result<Vector, Refusal>
    requires { read ≡ header_of header.now }
    ensures passed { OnOk result (outcome_before10 header.now coefficients.now spoiled (Ok tt) ≡ Ok tt) }
    ensures refused { IfErr result (λ e. outcome_before10 header.now coefficients.now spoiled (Ok tt) ≡ Err e) }
    ensures denominator { IfOk result (λ v. v.g.c ≡ denominator_of read.bounds coefficients.now) }
    ensures numerators { IfOk result (λ v. (i : ℕ) → i < read.bounds.outputs → coefficients_at v.f i ≡ numerator_of read.bounds coefficients.now i) }
{
    check_rules(header.len(), read)?;
    let b = read.bounds;
    if header.len() != read.length || coefficients.len() != b.answer_length() - 4 {
        return Err(Reason::ByteCount.into());
    }
    if b.rows < rows_needed(read) {
        return Err(Reason::TooFewRows.into());
    }
    if (field::modulus(b.prime) as usize) < b.rows || b.rows < spoiled as usize {
        return Err(Reason::TooManyRows.into());
    }
    checked_vector(coefficients, b).ok_or(Refusal::from(Reason::OutOfRange))
}

// Writes the job of a vector and returns how many bytes it wrote.
fn put_job(area: &mut [u8], header: &[u8], b: Bounds, v: &Vector, start: u32, spoiled: u32) -> usize
    requires { FitsFields b × (0 < b.rows) × (length header.now + 2 * b.rows * (1 + b.outputs) ≤ length area.old) × Bounded (prime_of b) 32 v.now.g.c
        × ((i : ℕ) → i < b.outputs → Bounded (prime_of b) 32 (coefficients_at v.now.f i)) }
    ensures { (result ≡ length header.now + 2 * b.rows * (1 + b.outputs))
        × (area.new ≡ overwritten (job_bytes b header.now (coefficients_at v.now.f) v.now.g.c (added_by (prime_of b) b.rows start spoiled)) area.old) }
{
    let front = answer::put_bytes(area, header);
    let by = spoiling::spoilings(b.prime, b.rows, start, spoiled as usize);
    front + job_rows::put_rows(area, front, b, v, &by)
}

// Any header, coefficients, start and number of rows, any area: the caller owes nothing.
pub fn trial(
    header: &[u8],
    coefficients: &[u8],
    start: u32,
    spoiled: u32,
    area: &mut [u8],
) -> Result<u32, Refusal>
    ensures { Trial header.now coefficients.now start spoiled area.old (writing_report_of result) area.new }
{
    let read = read_header(header);
    let v = check(header, read, coefficients, spoiled)?;
    let b = read.bounds;
    if !is_reduced(b.prime, b.outputs, &v) {
        return Err(Reason::NotReduced.into());
    }
    if area.len() < job_length(read) {
        return Err(Reason::AreaTooShort.into());
    }
    let bytes = put_job(area, header, b, &v, start, spoiled) as u32;
    Ok(bytes)
}
