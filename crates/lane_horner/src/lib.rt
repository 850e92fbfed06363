// A step of Horner's rule for all points at once, in place (`lanes` says how).
#![tactic(auto)]

ghost use Rattle.std.specs.Prelude.{◌≤◌, ◌<◌, ◌≡◌};
ghost use Rattle.lanes.specs.Lanes.{groups_of, modulus_at, Residues, replaced, horner_lane};

use lanes::Modulus;
use montgomery::{difference, low, product};

// x_l a_l + c, in place of a; xs holds the forms of the x_l.
pub fn horner(m: &Modulus, n: usize, xs: &[u16; 32], a: &mut [u16; 32], c: u16) -> usize
    requires { (n ≤ 32) × Residues m.now.p xs.now × Residues m.now.p a.old × (c < modulus_at m.now.p) }
    ensures { (result ≡ groups_of n)
        × (a.new ≡ replaced 0 (groups_of n) (horner_lane m.now.p m.now.inverse xs.now a.old c) a.old) }
{
    let ms = [m.p[0] - c; 32];
    let end = (n + 7) / 8 * 8;
    for k in 0..end {
        let p = m.p[k];
        let x = xs[k];
        a[k] = difference(p, product(p, x, low(x, m.inverse[k]), a[k]), ms[k]);
    }
    end
}
