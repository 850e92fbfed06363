// Paper 02, item 4: jobs checked for form only, by the tests 1, 11, 3, 4, 5, 12 and 6.
// There is no answer area, and no more of a job's rows is kept than their points.
#![tactic(auto)]

ghost use Rattle.std.specs.Prelude.{◌<◌, ◌≤◌, ◌||◌, ◌≡◌, leb, length, get_or, Ok};
ghost use Rattle.header.specs.Header.{header_of, job_length_of, marks_allowed, FitsHeader};
ghost use Rattle.job.specs.Refusals.{row_tests};
ghost use Rattle.job.specs.Form.{form_outcome_of};
ghost use Rattle.marked_rows.specs.Marks.{mark_of};
ghost use Rattle.marked_rows.specs.Table.{conditions_by};
ghost use Rattle.lists.specs.Search.{any_below};
ghost use Rattle.form_check.specs.Reports.{form_report_of, recovery_form_report_of};
ghost use Rattle.form_check.specs.Steps.{row_form_of, Scanned};

use format::{Recovered, Refusal, Report};
use header::{Header, read_header, rows_needed};
use job::{check_header, check_table};
use marked_rows::row_conditions;
use rows::{Row, row_at};

// What a check tells in the papers' numbers: the refusal (0 where none) and the row it names. Callers in C get it as it stands here.
#[repr(C)]
#[derive(Clone, Copy, Debug, PartialEq, Eq)]
pub struct FormReport {
    pub refusal: u32,
    pub row: u32,
}

// The refusal and the row of a report.
fn form_part(report: Report) -> FormReport
    ensures { result ≡ record { refusal = report.refusal; row = report.row } }
{
    FormReport {
        refusal: report.refusal,
        row: report.row,
    }
}

impl From<Result<(), Refusal>> for FormReport {
    ghost from_gives = { λ check report. report ≡ form_report_of check };

    fn from(check: Result<(), Refusal>) -> FormReport {
        form_part(Report::from(check))
    }
}

// The same of a recovery.
impl From<Result<Recovered, Refusal>> for FormReport {
    ghost from_gives = { λ recovery report. report ≡ recovery_form_report_of recovery };

    fn from(recovery: Result<Recovered, Refusal>) -> FormReport {
        form_part(Report::from(recovery))
    }
}

// Whether the point or a value is p or more. Values that do not exist are 0.
// Kept: five tests with no branch, since each row of each job takes them; `any` branches at each value.
fn is_out_of_range(point: u32, v: [u32; 4], p: u32) -> bool
    ensures { result ≡ (leb p point || any_below 4 (λ i. leb p (get_or v i 0))) }
{
    (p <= point) | (p <= v[0]) | (p <= v[1]) | (p <= v[2]) | (p <= v[3])
}

// How many rows a row adds to those that speak, or nothing where test 5 refuses it. Where marks are allowed it is asked for its mark, but only if a
// number in it is p or more: marks are.
fn row_form<const MARKS: bool>(row: Row, outputs: usize, p: u32) -> Option<usize>
    requires { (1 ≤ outputs) × (outputs ≤ 4) × (p < 65534) }
    ensures { result ≡ row_form_of p (conditions_by (mark_of MARKS outputs (λ i. get_or row.values i 0)) row) }
{
    if !is_out_of_range(row.point, row.values, p) {
        return Some(1);
    }
    if !MARKS {
        return None;
    }
    let marked = row_conditions(row, outputs, true);
    let sides = marked.values;
    let refused = is_out_of_range(marked.point, sides, p);
    if refused {
        return None;
    }
    Some(marked.speaking)
}

// Reads each row once, and stores its point: the first row that test 5 refuses, and where there is none how many rows speak.
fn scan<const MARKS: bool>(
    job: &[u8],
    header: &Header,
    points: &mut [u32; 32],
) -> Result<usize, u32>
    requires read { (header.now ≡ header_of job.now) × FitsHeader header.now × (length job.now ≡ job_length_of header.now) × (length points.old ≡ 32) }
    requires marks { MARKS ≡ marks_allowed header.now.flags }
    ensures { Scanned job.now result points.new }
{
    let bounds = header.bounds;
    let p = field::modulus(bounds.prime);
    let mut speaking = 0;
    for r in 0..bounds.rows {
        let row = row_at(job, header.length, r, bounds.rows, bounds.outputs);
        points[r] = row.point;
        let Some(adds) = row_form::<MARKS>(row, bounds.outputs, p) else {
            return Err(r as u32);
        };
        speaking = speaking + adds;
    }
    Ok(speaking)
}

// The same by the header's flag, which no row is asked for.
fn scan_rows(job: &[u8], header: &Header, points: &mut [u32; 32]) -> Result<usize, u32>
    requires { (header.now ≡ header_of job.now) × FitsHeader header.now × (length job.now ≡ job_length_of header.now) × (length points.old ≡ 32) }
    ensures { Scanned job.now result points.new }
{
    if header.marks_allowed() {
        return scan::<true>(job, header, points);
    }
    scan::<false>(job, header, points)
}

// Tests 5, 12 and 6, where the earlier ones do not apply. Behind the points stands a number that no point is.
fn check_rows(job: &[u8], header: &Header) -> Result<(), Refusal>
    requires { (header.now ≡ header_of job.now) × FitsHeader header.now × (length job.now ≡ job_length_of header.now) }
    ensures { result ≡ row_tests job.now (Ok tt) }
{
    let mut points = [65536u32; 32];
    let scanned = scan_rows(job, header, &mut points);
    let needed = rows_needed(*header);
    check_table(
        header.bounds.rows,
        needed,
        scanned.err(),
        scanned.unwrap_or(0),
        &points,
    )
}

// Refuses a job, any bytes, by the first of tests 1, 11, 3, 4, 5, 12 and 6 that applies.
pub fn check(job: &[u8]) -> Result<(), Refusal>
    ensures { result ≡ form_outcome_of job.now }
{
    let header = read_header(job);
    check_header(job.len(), header)?;
    check_rows(job, &header)
}
