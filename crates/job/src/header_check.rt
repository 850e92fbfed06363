// Tests 1, 11, 3 and 4: what a job's header and length decide.
ghost use Rattle.std.specs.Prelude.{◌≡◌};
ghost use Rattle.header.specs.Header.{FitsHeader};
ghost use Rattle.job.specs.Form.{header_outcome_of};

use format::{Reason, Refusal};
use header::{Header, job_length, rows_needed};
use header_rules::check_rules;

// Refuses so many bytes that begin with this header by the first test that applies, in their order.
pub fn check_header(bytes: usize, header: Header) -> Result<(), Refusal>
    requires { FitsHeader header }
    ensures { result ≡ header_outcome_of bytes header }
{
    check_rules(bytes, header)?;
    if bytes != job_length(header) {
        return Err(Reason::ByteCount.into());
    }
    if header.bounds.rows < rows_needed(header) {
        return Err(Reason::TooFewRows.into());
    }
    Ok(())
}
