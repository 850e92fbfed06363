// Paper 02, item 4: eight bytes of a row as one 64-bit word, and its four parts.
#![tactic(auto)]

ghost use Rattle.std.specs.Prelude.{◌+◌, ◌<◌, ◌≤◌, ◌≡◌, length};
ghost use Rattle.read_u64.specs.Words.{joined_bytes, part_of};

// The number of the four bytes from place k on.
// Kept: `from_be_bytes` is scalar code. Of products and sums the compiler makes vector code, a quarter fewer instructions for the check of a full job.
fn four_bytes(s: &[u8], k: usize) -> u32
    requires { k + 3 < length s.now }
    ensures { result ≡ joined_bytes s.now k 4 }
{
    u32::from(s[k]) * 16777216
        + u32::from(s[k + 1]) * 65536
        + u32::from(s[k + 2]) * 256
        + u32::from(s[k + 3])
}

// The word of the first eight bytes.
pub fn read_u64(bytes: &[u8]) -> u64
    requires { 8 ≤ length bytes.now }
    ensures { result ≡ joined_bytes bytes.now 0 8 }
{
    four_bytes(bytes, 0) as u64 * 4294967296 + four_bytes(bytes, 4) as u64
}

// Part j of the word's four, from the top.
pub fn part(word: u64, j: usize) -> u32
    requires { j < 4 }
    ensures { result ≡ part_of word j }
{
    ((word >> (16 * (3 - j))) % 65536) as u32
}
