// Paper 02, item 1, over two calls: a trial job is written and recovered.
#![tactic(auto)]

ghost use Rattle.format.specs.Outcomes.{report_of, writing_report_of};
ghost use Rattle.trial_recovery.specs.TrialRecovery.{TrialRecovered};

use format::{Recovered, Refusal};

// What two calls returned.
#[derive(Clone, Copy, Debug, PartialEq, Eq)]
pub struct TrialAndRecovery {
    pub writing: Result<u32, Refusal>,
    pub recovery: Result<Recovered, Refusal>,
}

// Writes a trial job and recovers it from the bytes just written; from none, where no job was written.
pub fn write_and_recover(
    header: &[u8],
    coefficients: &[u8],
    start: u32,
    spoiled: u32,
    job_area: &mut [u8],
    area: &mut [u8],
) -> TrialAndRecovery
    ensures { TrialRecovered header.now coefficients.now start spoiled job_area.old (writing_report_of result.writing) job_area.new
        area.old (report_of result.recovery) area.new }
{
    let writing = trial::trial(header, coefficients, start, spoiled, job_area);
    let end = writing.unwrap_or(0) as usize;
    let recovery = recovery::recover(&job_area[..end], area);
    TrialAndRecovery { writing, recovery }
}
