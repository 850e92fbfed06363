// Paper 02, item 6: rows that report a pole and rows that are silent, and all rows of a job by the conditions that they put.
#![tactic(auto)]

ghost use Rattle.std.specs.Prelude.{◌+◌, ◌*◌, ◌<◌, ◌≤◌, ◌≡◌, length, get_or};
ghost use Rattle.header.specs.Header.{header_length_of, flags_of, marks_allowed, bounds_of};
ghost use Rattle.marked_rows.specs.Marks.{all_are, mark_of, speaking_count};
ghost use Rattle.marked_rows.specs.Table.{conditions_by, job_points, job_weights, job_values};

use rows::{Row, row_at};

// The value of every output in a row that reports a pole, and in one that is silent.
const POLE: u32 = 65535;

const SILENT: u32 = 65534;

// What a row is marked with whose values are no numbers.
#[derive(Clone, Copy, Debug, PartialEq, Eq)]
pub enum Mark {
    Pole,
    Silent,
}

// A row by its conditions, c fi(x) = g(x) yi for each output: its weight is c, its values are the yi. And how many rows it adds to those that
// speak.
#[derive(Clone, Copy)]
pub struct RowConditions {
    pub point: u32,
    pub weight: u16,
    pub values: [u32; 4],
    pub speaking: usize,
}

// All rows: row r's point and weight stand at r, its value for output i at 4 r + i. And how many of them speak.
#[derive(Clone, Copy)]
pub struct Table {
    pub points: [u32; 32],
    pub weights: [u16; 32],
    pub values: [u32; 128],
    pub speaking: usize,
}

// Whether the value of every output is m.
fn all_are(values: [u32; 4], outputs: usize, m: u32) -> bool
    requires { outputs ≤ 4 }
    ensures { result ≡ all_are outputs (λ i. get_or values i 0) m }
{
    values[..outputs].iter().all(|value| *value == m)
}

// What a row is marked with, where marks are allowed; nothing where its values are numbers.
#[tactic(auto, unfolding(crate::specs::Marks::mark_of))]
fn mark_of(row: Row, outputs: usize, marks: bool) -> Option<Mark>
    requires { outputs ≤ 4 }
    ensures { result ≡ mark_of marks outputs (λ i. get_or row.values i 0) }
{
    let values = row.values;
    if marks {
        if all_are(values, outputs, POLE) {
            return Some(Mark::Pole);
        }
        if all_are(values, outputs, SILENT) {
            return Some(Mark::Silent);
        }
    }
    None
}

// The row by its conditions: 0 fi(x) = g(x) for a pole, 0 = 0 for a silent row.
pub fn row_conditions(row: Row, outputs: usize, marks: bool) -> RowConditions
    requires { outputs ≤ 4 }
    ensures { result ≡ conditions_by (mark_of marks outputs (λ i. get_or row.values i 0)) row }
{
    let point = row.point;
    let values = row.values;
    match mark_of(row, outputs, marks) {
        None => RowConditions {
            point,
            weight: 1,
            values,
            speaking: 1,
        },
        Some(Mark::Pole) => RowConditions {
            point,
            weight: 0,
            values: [1; 4],
            speaking: 1,
        },
        Some(Mark::Silent) => RowConditions {
            point,
            weight: 0,
            values: [0; 4],
            speaking: 0,
        },
    }
}

// All rows of a job whose length fits its header.
pub fn read_table(job: &[u8], start: usize, rows: usize, outputs: usize, marks: bool) -> Table
    requires within { (start ≤ 7) × (rows ≤ 31) × (outputs ≤ 4) × (length job.now ≡ start + 2 * rows * (1 + outputs)) }
    requires from_header { (start ≡ header_length_of job.now) × (rows ≡ (bounds_of job.now).rows) × (outputs ≡ (bounds_of job.now).outputs) × (marks ≡ marks_allowed (flags_of job.now)) }
    ensures { (result.points ≡ job_points job.now) × (result.weights ≡ job_weights job.now) × (result.values ≡ job_values job.now)
        × (result.speaking ≡ speaking_count job.now) }
{
    let mut points = [0u32; 32];
    let mut weights = [0u16; 32];
    let mut values = [0u32; 128];
    let mut speaking = 0;
    for r in 0..rows {
        let read = row_at(job, start, r, rows, outputs);
        let row = row_conditions(read, outputs, marks);
        let v = row.values;
        let at = r * 4;
        points[r] = row.point;
        weights[r] = row.weight;
        // Kept: `copy_from_slice` puts the row into memory first, and asks whether the two overlap.
        values[at] = v[0];
        values[at + 1] = v[1];
        values[at + 2] = v[2];
        values[at + 3] = v[3];
        speaking += row.speaking;
    }
    Table {
        points,
        weights,
        values,
        speaking,
    }
}
