// The word of wrong rows (paper 01, "The recovered sheet").
#![tactic(auto)]

ghost use Rattle.std.specs.Prelude.{◌+◌, ◌-◌, ◌^◌, ◌<◌, ◌≡◌};
ghost use Rattle.row_mask.specs.Word.{with_row, wrong_count_of, first_wrong_of};

// The word with the bit of one more row.
#[tactic(auto, using(std::proofs::lemmas::Nat::shl_whole))]
pub fn with_row(word: u32, row: usize, wrong: bool) -> u32
    requires { (row < 32) × (word + 2 ^ (31 - row) < 2 ^ 32) }
    ensures { result ≡ with_row word row wrong }
{
    if wrong {
        word + (1 << (31 - row))
    } else {
        word
    }
}

#[tactic(auto, using(crate::proofs::SetBits::ones_set))]
pub fn wrong_count(word: u32) -> u32
    ensures { result ≡ wrong_count_of word }
{
    u32::count_ones(word)
}

// 32 where no row is wrong.
pub fn first_wrong(word: u32) -> u32
    ensures { result ≡ first_wrong_of word }
{
    u32::leading_zeros(word)
}
