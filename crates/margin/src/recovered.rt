// Paper 02, item 7: how far off every other reduced vector is from the answer that a job's recovery gives.
ghost use Rattle.format.specs.Outcomes.{report_of};
ghost use Rattle.margin.specs.RecoveredMargin.{RecoveredMargin};

use format::{Recovered, Refusal, Report};

// What two calls returned.
#[derive(Clone, Copy, Debug, PartialEq, Eq)]
pub struct Measured {
    pub recovery: Result<Recovered, Refusal>,
    pub margin: u32,
}

// Recovers a job into the area, and asks for the margin with the count of wrong rows that this returned. A refused job is given no answer, and
// the margin is 0.
// Kept: a margin beside a refusal. That it is 0 is a clause of its own (`refused` of RecoveredMargin), which a wrong program breaks.
pub fn recover_with_margin(job: &[u8], area: &mut [u8]) -> Measured
    ensures { RecoveredMargin job.now area.old (report_of result.recovery) area.new result.margin }
{
    let recovery = recovery::recover(job, area);
    let report = Report::from(recovery);
    if 0 < report.refusal {
        return Measured {
            recovery,
            margin: 0,
        };
    }
    let margin = crate::margin(job, report.wrong);
    Measured { recovery, margin }
}
