// The rows of a job: a point and the values of the outputs, 16 bits a number.
#![tactic(auto)]

ghost use Rattle.std.specs.Prelude.{◌+◌, ◌*◌, ◌<◌, ◌≤◌, ◌≡◌, length};
ghost use Rattle.format.specs.Numbers.{number_from, word_from};
ghost use Rattle.header.specs.Header.{header_length_of, bounds_of};
ghost use Rattle.rows.specs.Steps.{row_of, row_at};

use read_u64::{part, read_u64};

#[derive(Clone, Copy)]
pub struct Row {
    pub point: u32,
    pub values: [u32; 4],
}

// The number at bytes k and k + 1.
pub fn number_from(s: &[u8], k: usize) -> u32
    requires { k + 1 < length s.now }
    ensures { result ≡ number_from s.now k }
{
    u32::from(u16::from_be_bytes([s[k], s[k + 1]]))
}

// The word of the first four bytes.
pub fn word_from(s: &[u8]) -> u32
    requires { 4 ≤ length s.now }
    ensures { result ≡ word_from s.now }
{
    u32::from_be_bytes([s[0], s[1], s[2], s[3]])
}

// A row of four or five numbers: the first four from one word, the one left over singly.
fn read_long_row(bytes: &[u8], outputs: usize) -> Row
    requires { (3 ≤ outputs) × (outputs ≤ 4) × (length bytes.now ≡ 2 * (1 + outputs)) }
    ensures { result ≡ row_of bytes.now outputs }
{
    let word = read_u64(bytes);
    let last = if outputs == 4 {
        number_from(bytes, 8)
    } else {
        0
    };
    Row {
        point: part(word, 0),
        values: [part(word, 1), part(word, 2), part(word, 3), last],
    }
}

// A row of two or three numbers, read singly.
fn read_short_row(bytes: &[u8], outputs: usize) -> Row
    requires { (outputs < 3) × (length bytes.now ≡ 2 * (1 + outputs)) }
    ensures { result ≡ row_of bytes.now outputs }
{
    let point = number_from(bytes, 0);
    let mut values = [0; 4];
    for i in 0..outputs {
        values[i] = number_from(bytes, 2 * (1 + i));
    }
    Row { point, values }
}

// A row from its own bytes.
fn read_row(bytes: &[u8], outputs: usize) -> Row
    requires { (outputs ≤ 4) × (length bytes.now ≡ 2 * (1 + outputs)) }
    ensures { result ≡ row_of bytes.now outputs }
{
    if outputs < 3 {
        return read_short_row(bytes, outputs);
    }
    read_long_row(bytes, outputs)
}

// Row r of the job, read through its own bytes; the rows begin at a byte called start.
#[tactic(auto, using(crate::proofs::RowPlaces::row_ends, crate::proofs::RowPlaces::row_part))]
pub fn row_at(job: &[u8], start: usize, r: usize, rows: usize, outputs: usize) -> Row
    requires within { (start ≤ 7) × (r < rows) × (rows ≤ 31) × (outputs ≤ 4) × (length job.now ≡ start + 2 * rows * (1 + outputs)) }
    requires from_header { (start ≡ header_length_of job.now) × (outputs ≡ (bounds_of job.now).outputs) }
    ensures { result ≡ row_at job.now r }
{
    let from = start + 2 * (r * (1 + outputs));
    let to = from + 2 * (1 + outputs);
    read_row(&job[from..to], outputs)
}
