// Paper 02, item 4, over two calls: a job is checked for form and recovered.
#![tactic(auto)]

ghost use Rattle.format.specs.Outcomes.{report_of};
ghost use Rattle.checked_recovery.specs.CheckedRecovery.{CheckedRecovery};

use format::{Recovered, Refusal};

// What two calls returned.
#[derive(Clone, Copy)]
pub struct CheckAndRecovery {
    pub form: Result<(), Refusal>,
    pub recovery: Result<Recovered, Refusal>,
}

// Checks a job for form, and recovers it into the area.
pub fn check_and_recover(job: &[u8], area: &mut [u8]) -> CheckAndRecovery
    ensures { CheckedRecovery job.now area.old result.form (report_of result.recovery) area.new }
{
    let form = form_check::check(job);
    let recovery = recovery::recover(job, area);
    CheckAndRecovery {
        form: form,
        recovery: recovery,
    }
}
