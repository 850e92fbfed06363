// Products of residues in 16 bits by Montgomery's reduction (`reduction`), with the constants and factors of the four primes.
#![tactic(auto)]

pub mod reduction;

ghost use Rattle.std.specs.Prelude.{◌*◌, ◌%◌, ◌≡◌};
ghost use Rattle.field.specs.Primes.{modulus_of};
ghost use Rattle.montgomery.specs.Factors.{inverse_of, montgomery_form, factor_of};

use field::Prime;
pub use reduction::{difference, product};

// A number e as the factor of products: Montgomery's form of it, 2^16 e modulo the prime, and that divided by the prime modulo 2^16.
#[derive(Clone, Copy)]
pub struct Factor {
    pub form: u16,
    pub low: u16,
}

// The reciprocal of the prime modulo 2^16.
pub fn inverse(q: Prime) -> u16
    ensures { result ≡ inverse_of q }
{
    match q {
        Prime::P7 => 28087,
        Prime::P97 => 41889,
        Prime::P257 => 65281,
        Prime::P65521 => 4369,
    }
}

// Montgomery's form of a number.
fn form(q: Prime, e: u32) -> u16
    ensures { result ≡ montgomery_form (modulus_of q) e }
{
    field::reduce(q, e as u64 * 65536) as u16
}

// The low half of a product.
pub fn low(a: u16, b: u16) -> u16
    ensures { result ≡ a * b % 65536 }
{
    a.wrapping_mul(b)
}

pub fn as_factor(q: Prime, e: u32) -> Factor
    ensures { result ≡ factor_of q e }
{
    let d = form(q, e);
    let l = low(d, inverse(q));
    Factor { form: d, low: l }
}
