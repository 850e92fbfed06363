// Paper 02, item 3: whether bytes that somebody offers are a job's answer, found without recovering the job.
#![tactic(auto)]

ghost use Rattle.std.specs.Prelude.{◌≤◌, ◌≡◌, true, ◌↔◌, length};
ghost use Rattle.format.specs.Bounds.{answer_length_of, FitsPolynomials};
ghost use Rattle.poly.specs.Vectors.{coefficients_at};
ghost use Rattle.problem.specs.Answers.{Within};
ghost use Rattle.offered_answer.specs.Judgements.{judgement_report_of, Judged};
ghost use Rattle.offered_answer.specs.Tests.{RowsAgree, Passes};

use answer::checked_vector;
use format::{Bounds, LONGEST_ANSWER, Reason, Refusal};
use marked_rows::Table;
use poly::Vector;
use reduced::is_reduced;
use row_mask::wrong_count;
use rows::word_from;
use wrong_rows::wrong_rows;

// What is said of an offered answer in the papers' numbers: the refusal (0 where none), the row it names, and 1 for yes. Callers in C get it as
// it stands here.
#[repr(C)]
#[derive(Clone, Copy, Debug, PartialEq, Eq)]
pub struct JudgementReport {
    pub refusal: u32,
    pub row: u32,
    pub yes: u32,
}

impl From<Result<bool, Refusal>> for JudgementReport {
    ghost from_gives = { λ judgement report. report ≡ judgement_report_of judgement };

    fn from(judgement: Result<bool, Refusal>) -> JudgementReport {
        match judgement {
            Ok(yes) => JudgementReport {
                refusal: 0,
                row: 0,
                yes: u32::from(yes),
            },
            Err(refusal) => JudgementReport {
                refusal: u32::from(refusal.reason),
                row: refusal.row,
                yes: 0,
            },
        }
    }
}

// Whether exactly the rows that the word names are wrong for the vector, and no more than E.
fn rows_agree(b: Bounds, table: &Table, v: &Vector, word: u32) -> bool
    requires { (b.rows ≤ 32) × FitsPolynomials b × Within b (coefficients_at v.now.f) v.now.g.c }
    ensures { (result ≡ true) ↔ RowsAgree b table.now.points table.now.weights table.now.values word (coefficients_at v.now.f) v.now.g.c }
{
    wrong_rows(b, table, v) == word && wrong_count(word) as usize <= b.errors
}

// The tests, on the offered bytes and the rows; the dearest comes last.
fn passes(b: Bounds, table: &Table, offered: &[u8]) -> bool
    requires { (b.rows ≤ 32) × FitsPolynomials b × (length offered.now ≡ answer_length_of b) }
    ensures { (result ≡ true) ↔ Passes b table.now.points table.now.weights table.now.values offered.now }
{
    let Some(v) = checked_vector(&offered[4..], b) else {
        return false;
    };
    rows_agree(b, table, &v, word_from(offered)) && is_reduced(b.prime, b.outputs, &v)
}

// Whether the offered bytes are the job's answer, with the word of its wrong rows, or why that is not judged. Any job, any offered answer: the
// caller owes nothing.
pub fn judge(job: &[u8], offered: &[u8]) -> Result<bool, Refusal>
    ensures { Judged job.now offered.now (judgement_report_of result) }
{
    let parsed = job::read(job, LONGEST_ANSWER)?;
    if offered.len() != parsed.bounds.answer_length() {
        return Err(Reason::ByteCount.into());
    }
    Ok(passes(parsed.bounds, &parsed.table, offered))
}
