// A job as a whole.
ghost use Rattle.std.specs.Prelude.{◌≡◌, length};
ghost use Rattle.header.specs.Header.{header_of, job_length_of, FitsHeader};
ghost use Rattle.job.specs.Refusals.{outcome_of_rows};
ghost use Rattle.job.specs.ParsedJob.{parsed_with, parsed_job_of};

use crate::header_check::check_header;
use crate::table_check::check_table;
use format::{Bounds, Reason, Refusal};
use header::{Header, read_header, rows_needed};
use marked_rows::{Table, read_table};
use row_search::first_out_of_range;

// The header's fields, and the rows by their conditions.
#[derive(Clone, Copy)]
pub struct ParsedJob {
    pub bounds: Bounds,
    pub table: Table,
}

// Tests 5, 12, 6 and 7, where the earlier ones do not apply.
fn read_body(job: &[u8], header: Header, area: usize) -> Result<ParsedJob, Refusal>
    requires { (header ≡ header_of job.now) × FitsHeader header × (length job.now ≡ job_length_of header) }
    ensures { result ≡ parsed_with (outcome_of_rows job.now area) job.now }
{
    let bounds = header.bounds;
    let marks = header.marks_allowed();
    let table = read_table(job, header.length, bounds.rows, bounds.outputs, marks);
    let p = field::modulus(bounds.prime);
    let found = first_out_of_range(&table.points, &table.values, bounds.rows, bounds.outputs, p);
    let needed = rows_needed(header);
    check_table(bounds.rows, needed, found, table.speaking, &table.points)?;
    if area < bounds.answer_length() {
        return Err(Reason::AreaTooShort.into());
    }
    Ok(ParsedJob { bounds, table })
}

// Reads a job; area is the length of the answer area. The tests run in their order.
pub fn read(job: &[u8], area: usize) -> Result<ParsedJob, Refusal>
    ensures { result ≡ parsed_job_of job.now area }
{
    let header = read_header(job);
    check_header(job.len(), header)?;
    read_body(job, header, area)
}
