// A pair of polynomials, and what one row does to two of them (docs/METHOD.md, section 1).
#![tactic(auto)]

pub mod stepping;

use poly::Poly;
pub use stepping::{Leader, PairArrays, PairState, RowStep, step};

// A pair (a, b), and the number e by which the two pairs are compared.
#[derive(Clone, Copy)]
pub struct Pair {
    pub a: Poly,
    pub b: Poly,
    pub e: usize,
}
