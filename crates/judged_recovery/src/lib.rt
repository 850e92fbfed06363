// Paper 02, item 3, over two calls: a job is recovered, and an answer offered for it is judged.
#![tactic(auto)]

ghost use Rattle.format.specs.Outcomes.{report_of};
ghost use Rattle.offered_answer.specs.Judgements.{judgement_report_of};
ghost use Rattle.judged_recovery.specs.JudgedRecovery.{JudgedRecovery};

use format::{Recovered, Refusal};

// What two calls returned.
#[derive(Clone, Copy, Debug, PartialEq, Eq)]
pub struct RecoveryAndJudgement {
    pub recovery: Result<Recovered, Refusal>,
    pub judgement: Result<bool, Refusal>,
}

// Recovers a job into the area, and judges an answer that is offered for it.
pub fn recover_and_judge(job: &[u8], area: &mut [u8], offered: &[u8]) -> RecoveryAndJudgement
    ensures { JudgedRecovery job.now area.old (report_of result.recovery) area.new offered.now (judgement_report_of result.judgement) }
{
    let recovery = recovery::recover(job, area);
    let judgement = offered_answer::judge(job, offered);
    RecoveryAndJudgement {
        recovery,
        judgement,
    }
}
