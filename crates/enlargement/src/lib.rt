// Demand 3, the enlargement rule: what the answer of one job says of the answer of another that holds its rows and more.
#![tactic(auto)]

ghost use Rattle.format.specs.Outcomes.{report_of};
ghost use Rattle.enlargement.specs.Enlargement.{TwoCalls};

use format::{Recovered, Refusal};

// What two calls returned.
#[derive(Clone, Copy)]
pub struct RecoveryPair {
    pub first: Result<Recovered, Refusal>,
    pub second: Result<Recovered, Refusal>,
}

// Demand 3, the enlargement rule: two jobs, each recovered by a call of its own.
pub fn recover_both(
    job: &[u8],
    area: &mut [u8],
    larger_job: &[u8],
    larger_area: &mut [u8],
) -> RecoveryPair
    ensures { TwoCalls job.now area.old (report_of result.first) area.new larger_job.now larger_area.old
        (report_of result.second) larger_area.new }
{
    let first = recovery::recover(job, area);
    let second = recovery::recover(larger_job, larger_area);
    RecoveryPair {
        first: first,
        second: second,
    }
}
