// Refusals 1 and 11: what a header alone decides.
#![tactic(auto)]

ghost use Rattle.std.specs.Prelude.{◌≤◌, ◌≡◌};
ghost use Rattle.header.specs.Header.{FitsHeader};
ghost use Rattle.header_rules.specs.Rules.{bounds_absent, breaks_rule, rules_outcome_of};

use format::{Bounds, Reason, Refusal};
use header::Header;

// Whether an output that does not exist has a bound other than 0.
fn bounds_absent(b: Bounds) -> bool
    requires { b.outputs ≤ 4 }
    ensures { result ≡ bounds_absent b }
{
    b.numerators[b.outputs..].iter().any(|bound| *bound != 0)
}

// Whether the longer header breaks a rule.
fn breaks_rule(h: Header) -> bool
    requires { h.bounds.outputs ≤ 4 }
    ensures { result ≡ breaks_rule h }
{
    if h.length != 7 {
        return false;
    }
    let b = h.bounds;
    (h.flags % 2048 != 0) | bounds_absent(b) | (h.df != b.largest_bound(b.outputs))
}

// Refuses so many bytes that begin with this header by the first of tests 1 and 11 that applies.
pub fn check_rules(bytes: usize, header: Header) -> Result<(), Refusal>
    requires { FitsHeader header }
    ensures { result ≡ rules_outcome_of bytes header }
{
    if bytes < header.length {
        return Err(Reason::TooShort.into());
    }
    if breaks_rule(header) {
        return Err(Reason::AddedHeader.into());
    }
    Ok(())
}
