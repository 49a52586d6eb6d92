// What is done to a line that is known to be one of the word's 32, or to a number of lines that is known to be 32 at most.
ghost use Rattle.std.specs.Prelude.{◌≡◌, ◌<◌, ◌≤◌, ◌^◌, ltb, get_or};
ghost use Rattle.words.specs.Word.{bit, flip, force, all_ones, lines_on};

// The value of a line.
#[tactic(auto, unfolding(crate::specs::Word::bit))]
pub fn value(word: u32, line: u32) -> u32
    requires { line < 32 }
    ensures { result ≡ bit word line }
{
    (word >> line) % 2
}

// The word with a line inverted.
#[tactic(auto, using(crate::proofs::Coded::flip_shl))]
pub fn flip(word: u32, line: u32) -> u32
    requires { line < 32 }
    ensures { result ≡ flip word line }
{
    word ^ (1 << line)
}

// The word with a line forced to a value.
#[tactic(auto, unfolding(crate::specs::Word::force))]
pub fn force(word: u32, line: u32, value: u32) -> u32
    requires { line < 32 }
    ensures { result ≡ force word line value }
{
    if self::value(word, line) == value {
        word
    } else {
        flip(word, line)
    }
}

// The word of n ones; 64 bits hold 2 ^ 32, so that 32 lines need no case of their own.
#[tactic(auto, using(crate::proofs::Coded::shl_some, crate::proofs::Coded::ones_fit, crate::proofs::Coded::ones_shl))]
pub fn all_ones(lines: u32) -> u32
    requires { lines ≤ 32 }
    ensures { result ≡ all_ones lines }
{
    ((1u64 << lines) - 1) as u32
}

// Whether a word is below 2 ^ n.
#[tactic(auto, using(crate::proofs::Coded::one_shl64))]
pub fn below(word: u32, lines: u32) -> bool
    requires { lines ≤ 32 }
    ensures { result ≡ ltb word (2 ^ lines) }
{
    (word as u64) < (1u64 << lines)
}

// The lowest line of a word that is 1.
#[tactic(auto, using(crate::proofs::LowestLaws::lowest_line))]
pub fn lowest(word: u32) -> u32
    requires { word ≡ 0 → ⊥ }
    ensures { result ≡ get_or (lines_on 32 word) 0 0 }
{
    word.trailing_zeros()
}
