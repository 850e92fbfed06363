// Tests 5, 12 and 6: what a pass over a job's rows decides.
ghost use Rattle.std.specs.Prelude.{◌≤◌, ◌≡◌};
ghost use Rattle.job.specs.Form.{table_outcome_of};

use format::{Reason, Refusal};
use row_search::first_repeated;

// Refuses so many rows by the first test that applies, in their order: test 5 found a row or nothing, so many rows are to speak and do, and these
// are the points.
pub fn check_table(
    rows: usize,
    needed: usize,
    found: Option<u32>,
    speaking: usize,
    points: &[u32; 32],
) -> Result<(), Refusal>
    requires { rows ≤ 31 }
    ensures { result ≡ table_outcome_of rows needed found speaking points.now }
{
    if let Some(row) = found {
        return Err(Refusal::new(Reason::OutOfRange, row));
    }
    if speaking < needed {
        return Err(Reason::TooFewSpeaking.into());
    }
    if let Some(row) = first_repeated(points, rows) {
        return Err(Refusal::new(Reason::RepeatedPoint, row));
    }
    Ok(())
}
