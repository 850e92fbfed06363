// Paper 02, item 7: the margin of a job and a number of wrong rows, and a job recovered with the margin of its answer.
#![tactic(auto)]

pub mod recovered;

ghost use Rattle.std.specs.Prelude.{◌+◌, ◌*◌, ◌≤◌, ◌≡◌};
ghost use Rattle.margin.specs.Margin.{excess_of, margin_of};

use format::LONGEST_ANSWER;
use header::read_header;
pub use recovered::{Measured, recover_with_margin};

// S - df - dg - 2 W, and 0 where that would be below 1.
fn excess(speaking: usize, df: usize, dg: usize, wrong: u32) -> u32
    requires { (speaking ≤ 31) × (df ≤ 31) × (dg ≤ 31) }
    ensures { result ≡ excess_of speaking (df + dg + 2 * wrong) }
{
    let others = df + dg + 2 * (wrong as usize);
    speaking.saturating_sub(others) as u32
}

// Any job and any number: the caller owes nothing. 0 also where a test before 7 refuses the job.
pub fn margin(job: &[u8], wrong: u32) -> u32
    ensures { result ≡ margin_of job.now wrong }
{
    let Ok(parsed) = job::read(job, LONGEST_ANSWER) else {
        return 0;
    };
    let bounds = parsed.bounds;
    let header = read_header(job);
    excess(parsed.table.speaking, header.df, bounds.dg, wrong)
}
