// A program that recovers the jobs of a file that people can read (`stdin`): H1 to H12, paper 01's refusals, jobs at the edges.
// It prints a line for each: the name, what the call returns, and the memory that the area lies in, 20 bytes that held A5 before. Some of H1 to
// H12 are there in longer areas too. Besides: the first bytes of H1's job; jobs with two faults, of which the first in the order of the tests
// counts; numbers at a prime and below it; no rows, and eight of them modulo 7; the longest job with the short header, 313 bytes (code 3, four
// outputs, 31 rows with the points 0 to 30, all values but the last 0), and one byte more; with the longer header some of these, bounds that
// differ, each rule broken, and 317 bytes; and with its first flag rows that report a pole,
// rightly and not, silent rows, too few rows that speak beside other faults, rows that are marked in part, and marks without the flag.
// A line of the file has a name, a colon, the length of the answer area, and the job's bytes with a space before each. The length and
// each byte are two hex digits.
#![tactic(auto)]

ghost use Rattle.std.specs.Prelude.{◌≤◌, ◌<◌, ◌≡◌, length, IfOk, OnErr};
ghost use Rattle.std.specs.Counts.{IsPrefixLen};

use format::{Recovered, Refusal};
use std::io;
use std::io::{Read, Write};

// The next byte of standard input, or 0 at its end.
fn next(input: &mut impl Read) -> io::Result<u8> {
    let mut byte = [0u8; 1];
    input.read(&mut byte)?;
    Ok(byte[0])
}

// The value of a hex digit.
fn digit(c: u8) -> u8
    ensures { result < 16 }
{
    (c % 16 + 9 * (c / 64)) % 16
}

fn read_byte(input: &mut impl Read) -> io::Result<u8> {
    let high = digit(next(input)?);
    let low = digit(next(input)?);
    Ok(16 * high + low)
}

// The length of the answer area.
fn read_area(input: &mut impl Read) -> io::Result<usize> {
    Ok(read_byte(input)? as usize)
}

// Copies a job's name to standard output, and skips the colon; false at the end of the input.
fn copy_name(rt: &impl Print, input: &mut impl Read) -> io::Result<bool> {
    for _ in 0usize..32 {
        let c = next(input)?;
        if c == 0 {
            return Ok(false);
        }
        if c == b':' {
            return Ok(true);
        }
        io::writer(rt).write_all(&[c])?;
    }
    Ok(false)
}

// Reads the job's bytes to the end of the line; returns how many there are. Where reading fails, the bytes that came before stand in the area.
fn read_job(input: &mut impl Read, bytes: &mut [u8]) -> io::Result<usize>
    ensures ok { IfOk result (λ n. IsPrefixLen n bytes.new) }
    ensures err { OnErr result (length bytes.new ≡ length bytes.old) }
{
    for (count, byte) in bytes.iter_mut().enumerate() {
        if next(input)? == b'\n' {
            return Ok(count);
        }
        *byte = read_byte(input)?;
    }
    Ok(bytes.len())
}

fn show_recovery(rt: &impl Print, recovery: Result<Recovered, Refusal>) -> io::Result<()> {
    match recovery {
        Ok(Recovered { bytes, wrong }) => print!(rt; " recovered {bytes} {wrong}"),
        Err(Refusal { reason, row }) => {
            let number = u32::from(reason);
            print!(rt; " refused {number} {row}")
        }
    }
}

fn show_bytes(rt: &impl Print, bytes: &[u8]) -> io::Result<()> {
    for byte in bytes {
        print!(rt; "{byte:02x}")?;
    }
    Ok(())
}

// The answer area is the first bytes of the memory.
fn show(rt: &impl Print, job: &[u8], area: usize) -> io::Result<()>
    requires { area ≤ 20 }
{
    let mut memory = [0xA5u8; 20];
    let recovery = recovery::recover(job, &mut memory[..area]);
    show_recovery(rt, recovery)?;
    print!(rt; " ")?;
    show_bytes(rt, &memory)?;
    print!(rt; "\n")
}

fn show_next(rt: &impl Print, input: &mut impl Read) -> io::Result<bool> {
    let mut job = [0u8; 320];
    if !copy_name(rt, input)? {
        return Ok(false);
    }
    let area = read_area(input)?;
    let count = read_job(input, &mut job)?;
    if 20 < area {
        return Ok(false);
    }
    show(rt, &job[..count], area)?;
    Ok(true)
}

fn main(rt: HostRuntime) -> io::Result<()> {
    let mut input = rt.reader();
    for _ in 0usize..1000 {
        if !show_next(&rt, &mut input)? {
            return Ok(());
        }
    }
    Ok(())
}
