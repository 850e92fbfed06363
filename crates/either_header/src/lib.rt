// Paper 02, item 5, over two calls: the same job is recovered under the short header and under the longer one.
#![tactic(auto)]

ghost use Rattle.format.specs.Outcomes.{report_of};
ghost use Rattle.either_header.specs.EitherHeader.{EitherHeader};

use format::{Recovered, Refusal};

// What two calls returned.
#[derive(Clone, Copy)]
pub struct HeaderRecoveries {
    pub short: Result<Recovered, Refusal>,
    pub longer: Result<Recovered, Refusal>,
}

// Recovers a job with the short header and one with the longer header, each by a call of its own.
// Kept beside enlargement::recover_both, whose body is the same: each of the two carries a claim of its own.
pub fn recover_either(
    short: &[u8],
    area: &mut [u8],
    longer: &[u8],
    longer_area: &mut [u8],
) -> HeaderRecoveries
    ensures { EitherHeader short.now area.old (report_of result.short) area.new longer.now longer_area.old
        (report_of result.longer) longer_area.new }
{
    let first = recovery::recover(short, area);
    let second = recovery::recover(longer, longer_area);
    HeaderRecoveries {
        short: first,
        longer: second,
    }
}
