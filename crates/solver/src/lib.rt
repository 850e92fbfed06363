// From the table of a job's rows the vector for which at most E rows are wrong, or that there is none.
#![tactic(auto)]

ghost use Rattle.std.specs.Prelude.{◌≡◌};
ghost use Rattle.format.specs.Bounds.{EnoughRows};
ghost use Rattle.candidate.specs.Candidates.{RowsInRange};
ghost use Rattle.solver.specs.Solutions.{solution_for};

use format::{Bounds, Reason, Refusal};
use marked_rows::Table;
use poly::Vector;

// An answer, with the word of its wrong rows and their count.
#[derive(Clone, Copy)]
pub struct Solution {
    pub word: u32,
    pub wrong: u32,
    pub vector: Vector,
}

// The candidate of all outputs, if at most E rows are wrong for it.
pub fn solve(b: Bounds, table: &Table) -> Result<Solution, Refusal>
    requires { EnoughRows b × RowsInRange b table.now.speaking table.now.points table.now.weights }
    ensures { result ≡ solution_for b table.now.speaking table.now.points table.now.weights table.now.values }
{
    let no_answer = Refusal::from(Reason::NoAnswer);
    let vector = candidate::after_outputs(b, table).ok_or(no_answer)?;
    let word = wrong_rows::wrong_rows(b, table, &vector);
    let wrong = row_mask::wrong_count(word);
    if b.errors < wrong as usize {
        return Err(no_answer);
    }
    Ok(Solution {
        word,
        wrong,
        vector,
    })
}
