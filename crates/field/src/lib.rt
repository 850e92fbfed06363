// The numbers modulo one of the four primes: any operands, reduced results.
#![tactic(auto)]

ghost use Rattle.std.specs.Prelude.{◌*◌, ◌%◌, ◌≡◌, Some};
ghost use Rattle.field.specs.Primes.{modulus_of, prime_named, prime_of_code, message_of};

use std::error::Error;
use std::fmt;

// Paper 01, "Primes by code".
#[derive(Clone, Copy, Debug, PartialEq, Eq)]
pub enum Prime {
    P7,
    P97,
    P257,
    P65521,
}

// For a code of two bits: larger numbers are read as 3.
pub fn prime_of_code(code: u32) -> Prime
    ensures { result ≡ prime_of_code code }
{
    match code {
        0 => Prime::P7,
        1 => Prime::P97,
        2 => Prime::P257,
        _ => Prime::P65521,
    }
}

// A code that names no prime.
#[derive(Clone, Copy, Debug, PartialEq, Eq)]
pub struct UnknownPrime(pub u32);

impl TryFrom<u32> for Prime {
    type Error = UnknownPrime;

    ghost try_from_gives = { λ code result. result ≡ prime_named code };

    fn try_from(code: u32) -> Result<Self, UnknownPrime> {
        if code <= 3 {
            Ok(prime_of_code(code))
        } else {
            Err(UnknownPrime(code))
        }
    }
}

impl fmt::Display for UnknownPrime {
    ghost output = { λ e. Some (message_of e) };

    fn fmt<W: fmt::Write>(&self, f: &mut fmt::Formatter<W>) -> fmt::Result {
        write!(f, "no prime has code {}", self.0)
    }
}

impl Error for UnknownPrime {}

pub fn modulus(q: Prime) -> u32
    ensures { result ≡ modulus_of q }
{
    match q {
        Prime::P7 => 7,
        Prime::P97 => 97,
        Prime::P257 => 257,
        Prime::P65521 => 65521,
    }
}

// Each remainder is by a constant, which compiles to a product and a shift.
pub fn reduce(q: Prime, x: u64) -> u32
    ensures { result ≡ x % modulus_of q }
{
    match q {
        Prime::P7 => (x % 7) as u32,
        Prime::P97 => (x % 97) as u32,
        Prime::P257 => (x % 257) as u32,
        Prime::P65521 => (x % 65521) as u32,
    }
}

pub fn product(q: Prime, a: u32, b: u32) -> u32
    ensures { result ≡ (a * b) % modulus_of q }
{
    reduce(q, a as u64 * b as u64)
}
