// Paper 02, item 1: the draws of a trial job, and which rows they spoil by how much.
#![tactic(auto)]

ghost use Rattle.std.specs.Prelude.{◌≡◌, ◌*◌, ◌%◌, ◌^◌, ◌<◌, ◌≤◌, not, ◌==◌, slice_index};
ghost use Rattle.field.specs.Primes.{modulus_of};
ghost use Rattle.lists.specs.Tabulated.{tabulate};
ghost use Rattle.spoiling.specs.Draws.{next_word, top_bits};
ghost use Rattle.spoiling.specs.Spoiling.{untaken_from, chosen_row, amount_of, added_by};

use field::Prime;

// The low 32 bits of the product.
fn wrapping_product(a: u32, b: u32) -> u32
    ensures { result ≡ a * b % 2 ^ 32 }
{
    a.wrapping_mul(b)
}

// One draw.
fn next_word(last: u32) -> u32
    ensures { result ≡ next_word last }
{
    wrapping_product(1664525, last).wrapping_add(1013904223)
}

fn top_bits(word: u32) -> u32
    ensures { result ≡ top_bits word }
{
    word / 65536
}

// Row d if it is not spoiled, else the next one that is not, from the last row to row 0.
fn untaken_from(by: &[u32; 32], rows: usize, d: usize) -> usize
    requires { (rows ≤ 32) × (d < rows) }
    ensures { result ≡ untaken_from rows (λ i. not (slice_index by.now i == 0)) d }
{
    let behind = (0..rows).find(|k| by[(d + *k) % rows] == 0).unwrap_or(0);
    (d + behind) % rows
}

// The row that a draw chooses.
#[tactic(auto, unfolding(crate::specs::Spoiling::chosen_row))]
fn chosen_row(by: &[u32; 32], rows: usize, word: u32) -> usize
    requires { (0 < rows) × (rows ≤ 32) }
    ensures { result ≡ chosen_row rows (λ i. slice_index by.now i) word }
{
    let d = top_bits(word) as usize % rows;
    untaken_from(by, rows, d)
}

// What a draw adds to the row that the draw before it chose.
fn amount(q: Prime, word: u32) -> u32
    ensures { result ≡ amount_of (modulus_of q) word }
{
    let p = field::modulus(q);
    top_bits(word) % (p - 1) + 1
}

// What the first `count` spoilings of `rows` rows add to the first value of each row, 0 where the row is not spoiled.
pub fn spoilings(q: Prime, rows: usize, start: u32, count: usize) -> [u32; 32]
    requires { (0 < rows) × (rows ≤ 32) }
    ensures { result ≡ tabulate 32 (added_by (modulus_of q) rows start count) }
{
    let mut by = [0u32; 32];
    let mut last = start;
    for _ in 0..count {
        let word = next_word(last);
        let row = chosen_row(&by, rows, word);
        last = next_word(word);
        by[row] = amount(q, last);
    }
    by
}
