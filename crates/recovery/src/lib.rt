// Demands 1 and 2: a job's bytes in, the reduced vector and exactly its wrong rows out, or a numbered refusal.
#![tactic(auto)]

ghost use Rattle.format.specs.Outcomes.{report_of};
ghost use Rattle.recovery.specs.Recovery.{Settled};

use format::{Recovered, Refusal};

// Demands 1 and 2: any job, any area.
pub fn recover(job: &[u8], area: &mut [u8]) -> Result<Recovered, Refusal>
    ensures { Settled job.now area.old (report_of result) area.new }
{
    let parsed = job::read(job, area.len())?;
    let solution = solver::solve(parsed.bounds, &parsed.table)?;
    let written = answer::write(area, parsed.bounds, solution.word, &solution.vector);
    Ok(Recovered {
        bytes: written as u32,
        wrong: solution.wrong,
    })
}
