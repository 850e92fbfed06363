// Arrays of residues changed in place, eight at a time: the modulus as such loops read it, and their definitions and laws.
// The functions of the `lane_` crates change arrays of 32 residues of 16 bits. A function goes over whole groups of eight entries, from the
// group of entry `from` to the group of entry n - 1, so that vector code needs no rest loop; it returns how many entries it wrote. The factors of
// a loop are read from arrays: one in a register is widened before the loop, and its products are then no longer 16 bits.
// `times_linear` and `combine` are inlined into the step of a row, where the compiler sees that the arrays do not overlap, and need not test it.
// Kept: a loop in each of them. One that takes the lane as a closure proves, but what a closure asks and gives is not proved without clauses of its
// own, and these say the lane's definition a second time.
#![tactic(auto)]

ghost use Rattle.lanes.specs.Lanes.{Moduli};

use field::Prime;

// The modulus and its reciprocal modulo 2^16, each 32 times.
#[derive(Clone, Copy)]
pub struct Modulus {
    pub p: [u16; 32],
    pub inverse: [u16; 32],
    ghost alike: { Moduli p },
}

impl Modulus {
    ghost use Rattle.lanes.specs.ModulusOf.{IsModulusOf};

    pub fn new(q: Prime) -> Self
        ensures { IsModulusOf q result }
    {
        let p = field::modulus(q) as u16;
        let inverse = montgomery::inverse(q);
        Modulus {
            p: [p; 32],
            inverse: [inverse; 32],
        }
    }
}
