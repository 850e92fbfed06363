// Products modulo a number p of at most 16 bits in 16-bit arithmetic, by Montgomery's reduction with 2^16: no division and no branch on
// p, so that a loop over residues compiles to vector code, eight residues at a time. Sixteen bits, because the processors that the
// library is compiled for multiply numbers of that width side by side, low and high halves, and of no greater one.
ghost use Rattle.std.specs.Prelude.{◌+◌, ◌-◌, ◌%◌, ◌≤◌, ◌<◌, ◌≡◌};
ghost use Rattle.montgomery.specs.Reduction.{reduced_of};

// a - b
pub fn difference(p: u16, a: u16, b: u16) -> u16
    requires { (a < p) × (b ≤ p) }
    ensures { result ≡ (a + (p - b)) % p }
{
    if a < b { a + (p - b) } else { a - b }
}

// The number of a factor times a, the factor given by its form and its low half.
#[tactic(auto, unfolding(crate::specs::Reduction::reduced_of))]
pub fn product(p: u16, form: u16, low: u16, a: u16) -> u16
    requires { (form < p) × (a < p) }
    ensures { result ≡ reduced_of p form low a }
{
    // Kept: no method of the library gives the high half of a product alone.
    let high = form as u32 * a as u32 / 65536;
    let m = low.wrapping_mul(a);
    let taken = m as u32 * p as u32 / 65536;
    difference(p, high as u16, taken as u16)
}
