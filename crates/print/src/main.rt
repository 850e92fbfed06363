// The printing program of paper 01: reads one job from standard input and prints what the recovery finds.
#![tactic(auto)]

ghost use Rattle.std.specs.Prelude.{◌≤◌, ◌≡◌, length};
ghost use Rattle.job.specs.ParsedJob.{parsed_job_of};
ghost use Rattle.print.specs.Printed.{text_bounds_of, Printed};

use field::Prime;
use format::{Bounds, LONGEST_ANSWER};
use std::io;
use std::io::{Read, Write};

// What the text of a refused job goes by, which says nothing of bounds.
const NO_BOUNDS: Bounds = Bounds {
    prime: Prime::P7,
    outputs: 0,
    rows: 0,
    numerators: [0; 4],
    dg: 0,
    errors: 0,
};

fn text_bounds(bytes: &[u8]) -> Bounds
    ensures { result ≡ text_bounds_of (parsed_job_of bytes.now 254) }
{
    match job::read(bytes, LONGEST_ANSWER) {
        Ok(job) => job.bounds,
        Err(_) => NO_BOUNDS,
    }
}

// Recovers a job into an area that no answer exceeds, and writes the text of what came out to the buffer's start; returns the text's length.
fn recovered_text(bytes: &[u8], buffer: &mut [u8]) -> usize
    requires { 1280 ≤ length buffer.old }
    ensures { Printed bytes.now buffer.old result buffer.new }
{
    let mut area = [0u8; LONGEST_ANSWER];
    let measured = margin::recover_with_margin(bytes, &mut area);
    let bounds = text_bounds(bytes);
    let recovery = Some(measured.recovery);
    let margin = measured.margin;
    let written = text::write_text(bounds, recovery, margin, &area, buffer);
    written.unwrap()
}

// Where nobody takes the text, there is nobody to tell.
fn print(rt: &impl Print, bytes: &[u8]) {
    let mut buffer = [0u8; 1280];
    let count = recovered_text(bytes, &mut buffer);
    let _ = io::writer(rt).write_all(&buffer[..count]);
}

// Reads until the bytes are full or the input ends; returns how many were read. An input that cannot be read ends there.
fn read_full(input: &mut impl Read, bytes: &mut [u8]) -> usize
    ensures { result ≤ length bytes.new }
{
    let mut count = 0;
    for _ in 0..bytes.len() {
        let got = input.read(&mut bytes[count..]).unwrap_or(0);
        if got == 0 {
            break;
        }
        count += got;
    }
    count
}

// A job has at most 317 bytes; one more is read, so that a longer input is refused.
fn main(rt: HostRuntime) {
    let mut bytes = [0u8; 318];
    let count = read_full(&mut rt.reader(), &mut bytes);
    print(&rt, &bytes[..count]);
}
