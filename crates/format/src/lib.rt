// What a job's header fixes, its bounds, and what a call answers: refusals, recoveries and reports.
#![tactic(auto)]

ghost use Rattle.std.specs.Prelude.{◌≤◌, ◌<◌, ◌≡◌};
ghost use Rattle.format.specs.Bounds.{numerator_bound_of, largest_bound, answer_length_of, FitsPolynomials};
ghost use Rattle.format.specs.Outcomes.{refusal_number, report_of, check_report_of, writing_report_of};

use field::Prime;

// What a header fixes: the prime, n outputs, L rows, the degree bounds of f1 to f4 and of g, E.
#[derive(Clone, Copy)]
pub struct Bounds {
    pub prime: Prime,
    pub outputs: usize,
    pub rows: usize,
    pub numerators: [usize; 4],
    pub dg: usize,
    pub errors: usize,
}

impl Bounds {
    // The degree bound of output i, counted from 0.
    pub fn numerator_bound(self, i: usize) -> usize
        requires { i < 4 }
        ensures { result ≡ numerator_bound_of self i }
    {
        self.numerators[i]
    }

    // The largest degree bound of the first n outputs.
    pub fn largest_bound(self, n: usize) -> usize
        requires { n ≤ 4 }
        ensures { result ≡ largest_bound self n }
    {
        let mut largest: usize = 0;
        for bound in &self.numerators[..n] {
            largest = largest.max(*bound);
        }
        largest
    }

    // How many bytes an answer has.
    pub fn answer_length(self) -> usize
        requires { FitsPolynomials self }
        ensures { result ≡ answer_length_of self }
    {
        let mut count = self.dg + 1;
        for bound in &self.numerators[..self.outputs] {
            count += *bound + 1;
        }
        4 + 2 * count
    }
}

// The most bytes of an answer: a word, and for four outputs of degree 30 at most over a constant g, 4 * 31 + 1 coefficients of 16 bits.
pub const LONGEST_ANSWER: usize = 254;

// The refusals in the order of their numbers: the eight of paper 01's table, then those of paper 02. A job is never refused with SpareBit, which
// stays for formats without the longer header, and a recovery gives of the later ones AddedHeader and TooFewSpeaking alone.
#[derive(Clone, Copy, Debug, PartialEq, Eq)]
pub enum Reason {
    TooShort,
    SpareBit,
    ByteCount,
    TooFewRows,
    OutOfRange,
    RepeatedPoint,
    AreaTooShort,
    NoAnswer,
    TooManyRows,
    NotReduced,
    AddedHeader,
    TooFewSpeaking,
}

// The refusal's number in the papers.
impl From<Reason> for u32 {
    ghost from_gives = { λ reason n. n ≡ refusal_number reason };

    fn from(reason: Reason) -> u32 {
        match reason {
            Reason::TooShort => 1,
            Reason::SpareBit => 2,
            Reason::ByteCount => 3,
            Reason::TooFewRows => 4,
            Reason::OutOfRange => 5,
            Reason::RepeatedPoint => 6,
            Reason::AreaTooShort => 7,
            Reason::NoAnswer => 8,
            Reason::TooManyRows => 9,
            Reason::NotReduced => 10,
            Reason::AddedHeader => 11,
            Reason::TooFewSpeaking => 12,
        }
    }
}

// Why a call is refused, and the row that the refusal speaks of, 0 where it speaks of none.
#[derive(Clone, Copy, Debug, PartialEq, Eq)]
pub struct Refusal {
    pub reason: Reason,
    pub row: u32,
}

impl Refusal {
    pub fn new(reason: Reason, row: u32) -> Refusal
        ensures { result ≡ record { reason = reason; row = row } }
    {
        Refusal { reason, row }
    }
}

// A refusal that speaks of no row.
impl From<Reason> for Refusal {
    ghost from_gives = { λ reason e. e ≡ record { reason = reason; row = 0 } };

    fn from(reason: Reason) -> Refusal {
        Refusal::new(reason, 0)
    }
}

// What a recovery did: the bytes that it wrote, and how many rows are wrong.
#[derive(Clone, Copy, Debug, PartialEq, Eq)]
pub struct Recovered {
    pub bytes: u32,
    pub wrong: u32,
}

// A recovery in the papers' numbers: the refusal (0 where none), the row it names, the bytes written, the wrong rows. Callers in C get it as
// it stands here.
#[repr(C)]
#[derive(Clone, Copy, Debug, PartialEq, Eq)]
pub struct Report {
    pub refusal: u32,
    pub row: u32,
    pub written: u32,
    pub wrong: u32,
}

impl From<Result<Recovered, Refusal>> for Report {
    ghost from_gives = { λ recovery report. report ≡ report_of recovery };

    fn from(recovery: Result<Recovered, Refusal>) -> Report {
        match recovery {
            Ok(Recovered { bytes, wrong }) => Report {
                refusal: 0,
                row: 0,
                written: bytes,
                wrong: wrong,
            },
            Err(Refusal { reason, row }) => Report {
                refusal: u32::from(reason),
                row: row,
                written: 0,
                wrong: 0,
            },
        }
    }
}

// What a check tells, as a recovery of no bytes.
impl From<Result<(), Refusal>> for Report {
    ghost from_gives = { λ check report. report ≡ check_report_of check };

    fn from(check: Result<(), Refusal>) -> Report {
        Report::from(check.map(|()| Recovered { bytes: 0, wrong: 0 }))
    }
}

// The same of a call that writes an area and recovers nothing: the refusal (0 where none), the row it names, the bytes written. Callers in C
// get it as it stands here.
#[repr(C)]
#[derive(Clone, Copy, Debug, PartialEq, Eq)]
pub struct WritingReport {
    pub refusal: u32,
    pub row: u32,
    pub written: u32,
}

impl From<Result<u32, Refusal>> for WritingReport {
    ghost from_gives = { λ writing report. report ≡ writing_report_of writing };

    fn from(writing: Result<u32, Refusal>) -> WritingReport {
        match writing {
            Ok(written) => WritingReport {
                refusal: 0,
                row: 0,
                written: written,
            },
            Err(refusal) => WritingReport {
                refusal: u32::from(refusal.reason),
                row: refusal.row,
                written: 0,
            },
        }
    }
}
