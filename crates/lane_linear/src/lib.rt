// A polynomial times (u - x), in place (`lanes` says how).
#![tactic(auto)]

ghost use Rattle.std.specs.Prelude.{◌≤◌, ◌<◌, ◌≡◌};
ghost use Rattle.lanes.specs.Lanes.{groups_of, modulus_at, Residues, replaced, linear_lane};

use lanes::Modulus;
use montgomery::{Factor, difference, product};

// (u - x) a, in place of a
#[inline(always)]
pub fn times_linear(m: &Modulus, n: usize, x: Factor, a: &mut [u16; 32]) -> usize
    requires { (n ≤ 32) × Residues m.now.p a.old × (x.form < modulus_at m.now.p) }
    ensures { (result ≡ groups_of n)
        × (a.new ≡ replaced 0 (groups_of n) (linear_lane m.now.p x a.old) a.old) }
{
    let xs = [x.form; 32];
    let xl = [x.low; 32];
    let end = (n + 7) / 8 * 8;
    let mut lower: u16 = 0;
    for k in 0..end {
        let p = m.p[k];
        let here = a[k];
        a[k] = difference(p, lower, product(p, xs[k], xl[k], here));
        lower = here;
    }
    end
}
