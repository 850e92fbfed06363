// The library's exported functions, for callers in C and Rust; include/hanthuvelo.h declares them.
#![tactic(auto)]

ghost use Rattle.std.specs.Prelude.{◌≡◌};
ghost use Rattle.form_check.specs.Reports.{form_report_of};
ghost use Rattle.job.specs.Form.{form_outcome_of};
ghost use Rattle.margin.specs.Margin.{margin_of};
ghost use Rattle.offered_answer.specs.Judgements.{Judged};
ghost use Rattle.reciprocal.specs.Reports.{coded_reciprocal, reciprocal_report_of};
ghost use Rattle.recovery.specs.Recovery.{Settled};
ghost use Rattle.trial.specs.Trial.{Trial};

use form_check::FormReport;
use format::{Report, WritingReport};
use offered_answer::JudgementReport;
use reciprocal::ReciprocalReport;

// Any job, any area: the caller owes nothing. The report is in the paper's numbers.
#[unsafe(no_mangle)]
pub extern "C" fn hanthuvelo_recover(job: &[u8], area: &mut [u8]) -> Report
    ensures { Settled job.now area.old result area.new }
{
    let recovery = recovery::recover(job, area);
    Report::from(recovery)
}

// Any header, coefficients, start and number of rows to be spoiled, any area for the job: the caller owes nothing.
#[unsafe(no_mangle)]
pub extern "C" fn hanthuvelo_trial(
    header: &[u8],
    coefficients: &[u8],
    start: u32,
    spoiled: u32,
    area: &mut [u8],
) -> WritingReport
    ensures { Trial header.now coefficients.now start spoiled area.old result area.new }
{
    let writing = trial::trial(header, coefficients, start, spoiled, area);
    WritingReport::from(writing)
}

// Any code and any number: the caller owes nothing. A code above 3 names no prime, and what is 0 modulo the prime has no reciprocal; the value is
// then no residue of any prime.
#[unsafe(no_mangle)]
pub extern "C" fn hanthuvelo_reciprocal(prime_code: u32, number: u32) -> ReciprocalReport
    ensures { result ≡ reciprocal_report_of (coded_reciprocal prime_code number) }
{
    let answer = reciprocal::coded_reciprocal(prime_code, number);
    ReciprocalReport::from(answer)
}

// Any job and any offered answer: the caller owes nothing.
#[unsafe(no_mangle)]
pub extern "C" fn hanthuvelo_judge(job: &[u8], answer: &[u8]) -> JudgementReport
    ensures { Judged job.now answer.now result }
{
    let judgement = offered_answer::judge(job, answer);
    JudgementReport::from(judgement)
}

// Any job: the caller owes nothing. The report is that of the first of tests 1, 11 and 3 to 6 that applies, zeros where none does.
#[unsafe(no_mangle)]
pub extern "C" fn hanthuvelo_check(job: &[u8]) -> FormReport
    ensures { result ≡ form_report_of (form_outcome_of job.now) }
{
    let check = form_check::check(job);
    FormReport::from(check)
}

// Any job and any number of wrong rows: the caller owes nothing. 0 where a test before 7 refuses the job, or the margin would be below 1.
#[unsafe(no_mangle)]
pub extern "C" fn hanthuvelo_margin(job: &[u8], wrong: u32) -> u32
    ensures { result ≡ margin_of job.now wrong }
{
    margin::margin(job, wrong)
}
