// A combination of two arrays of residues, in place (`lanes` says how).
#![tactic(auto)]

ghost use Rattle.std.specs.Prelude.{◌-◌, ◌*◌, ◌/◌, ◌≤◌, ◌<◌, ◌≡◌};
ghost use Rattle.lanes.specs.Lanes.{groups_of, modulus_at, Residues, replaced, combined_lane};

use lanes::Modulus;
use montgomery::{Factor, difference, product};

// d a - c b, in place of a
#[inline(always)]
pub fn combine(
    m: &Modulus,
    from: usize,
    n: usize,
    d: Factor,
    a: &mut [u16; 32],
    c: Factor,
    b: &[u16; 32],
) -> usize
    requires { («from» ≤ n) × (n ≤ 32) × Residues m.now.p a.old × Residues m.now.p b.now
        × (d.form < modulus_at m.now.p) × (c.form < modulus_at m.now.p) }
    ensures { (result ≡ groups_of n - «from» / 8 * 8)
        × (a.new ≡ replaced («from» / 8 * 8) (groups_of n) (combined_lane m.now.p d a.old c b.now) a.old) }
{
    let ds = [d.form; 32];
    let dl = [d.low; 32];
    let cs = [c.form; 32];
    let cl = [c.low; 32];
    let start = from / 8 * 8;
    let end = (n + 7) / 8 * 8;
    for k in start..end {
        let p = m.p[k];
        a[k] = difference(
            p,
            product(p, ds[k], dl[k], a[k]),
            product(p, cs[k], cl[k], b[k]),
        );
    }
    end - start
}
