// The entries of an array, one for each point, times the differences of the points, in place (`lanes` says how).
#![tactic(auto)]

ghost use Rattle.std.specs.Prelude.{◌-◌, ◌*◌, ◌/◌, ◌≤◌, ◌<◌, ◌≡◌};
ghost use Rattle.lanes.specs.Lanes.{groups_of, modulus_at, Residues, replaced, difference_lane};

use lanes::Modulus;
use montgomery::{difference, low, product};

// (x_l - x) a_l, in place of a; xs holds the forms of the x_l.
pub fn times_differences(
    m: &Modulus,
    from: usize,
    n: usize,
    xs: &[u16; 32],
    x: u16,
    a: &mut [u16; 32],
) -> usize
    requires { («from» ≤ n) × (n ≤ 32) × Residues m.now.p xs.now × (x < modulus_at m.now.p) × Residues m.now.p a.old }
    ensures { (result ≡ groups_of n - «from» / 8 * 8)
        × (a.new ≡ replaced («from» / 8 * 8) (groups_of n) (difference_lane m.now.p m.now.inverse xs.now x a.old) a.old) }
{
    let x0 = [x; 32];
    let start = from / 8 * 8;
    let end = (n + 7) / 8 * 8;
    for k in start..end {
        let p = m.p[k];
        let d = difference(p, xs[k], x0[k]);
        a[k] = product(p, d, low(d, m.inverse[k]), a[k]);
    }
    end - start
}
