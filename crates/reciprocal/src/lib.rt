// Reciprocals modulo the four primes, and that zero has none: for 257 from a table, for the others computed.
#![tactic(auto)]

ghost use Rattle.std.specs.Prelude.{◌%◌, ◌<◌, ◌≡◌};
ghost use Rattle.field.specs.Primes.{modulus_of};
ghost use Rattle.reciprocal.specs.Reciprocals.{reciprocal_of};
ghost use Rattle.reciprocal.specs.Reports.{coded_reciprocal, reciprocal_report_of};

use field::Prime;

mod table257;

// Keeps acc * a = b modulo p while b falls to 1. It never is 0, since no b between 1 and p divides the prime p.
fn computed_reciprocal(q: Prime, a: u32) -> u32
    requires { (0 < a) × (a < modulus_of q) }
    ensures { Some result ≡ reciprocal_of (modulus_of q) a }
{
    let p = field::modulus(q);
    let mut acc: u32 = 1;
    let mut b = a;
    while 1 < b {
        acc = field::product(q, acc, p - p / b);
        b = p % b;
    }
    acc
}

// The reciprocal of a residue that is not 0.
// A call for each prime: each is compiled with its prime as a constant, also where the prime's code comes from a caller.
fn residue_reciprocal(q: Prime, a: u32) -> u32
    requires { (0 < a) × (a < modulus_of q) }
    ensures { Some result ≡ reciprocal_of (modulus_of q) a }
{
    match q {
        Prime::P257 => table257::reciprocal_of(a),
        Prime::P7 => computed_reciprocal(Prime::P7, a),
        Prime::P97 => computed_reciprocal(Prime::P97, a),
        Prime::P65521 => computed_reciprocal(Prime::P65521, a),
    }
}

// For a caller that has excluded 0 modulo p: the number itself.
pub fn nonzero_reciprocal(q: Prime, a: u32) -> u32
    requires { 0 < a % modulus_of q }
    ensures { Some result ≡ reciprocal_of (modulus_of q) a }
{
    residue_reciprocal(q, field::reduce(q, a as u64))
}

// Paper 02, item 2: the reciprocal of a number, or "no reciprocal". Whatever is 0 modulo p has none.
pub fn reciprocal(q: Prime, a: u32) -> Option<u32>
    ensures { result ≡ reciprocal_of (modulus_of q) a }
{
    let x = field::reduce(q, a as u64);
    if x == 0 {
        return None;
    }
    Some(residue_reciprocal(q, x))
}

// Any code: one above 3 names no prime.
#[tactic(auto, unfolding(crate::specs::Reports::coded_reciprocal))]
pub fn coded_reciprocal(code: u32, a: u32) -> Option<u32>
    ensures { result ≡ coded_reciprocal code a }
{
    let q = Prime::try_from(code).ok()?;
    reciprocal(q, a)
}

// The number beside "no reciprocal": no residue of any prime, so that nobody takes it for a value.
const NO_RECIPROCAL: u32 = 4294967295;

// An answer in numbers: whether there is a reciprocal, and which. Callers in C get it as it stands here.
#[repr(C)]
#[derive(Clone, Copy)]
pub struct ReciprocalReport {
    pub exists: u32,
    pub value: u32,
}

impl From<Option<u32>> for ReciprocalReport {
    ghost from_gives = { λ answer report. report ≡ reciprocal_report_of answer };

    fn from(answer: Option<u32>) -> ReciprocalReport {
        match answer {
            Some(value) => ReciprocalReport { exists: 1, value },
            None => ReciprocalReport {
                exists: 0,
                value: NO_RECIPROCAL,
            },
        }
    }
}
