// The bits of a word: bit j is the value of line j. Nothing here knows a circuit.
#![tactic(auto)]

ghost use Rattle.std.specs.Prelude.{◌≡◌, length};
ghost use Rattle.words.specs.Word.{lines_on};
ghost use Rattle.words.specs.WordOf.{lacking, lone_zero};

pub mod checked;

// How many lines of a word are 1.
#[tactic(auto, using(crate::proofs::Counts::ones_lines_below))]
pub fn ones(word: u32) -> u32
    ensures { result ≡ length (lines_on 32 word) }
{
    word.count_ones()
}

// The lines of a mask that are 0 in a word.
#[tactic(auto, unfolding(crate::specs::WordOf::lacking))]
pub fn lacking(mask: u32, word: u32) -> u32
    ensures { result ≡ lacking mask word }
{
    (word & mask) ^ mask
}

// The one line of a mask that is 0 where all its others are 1, as a word; and 0 where there is none.
#[tactic(auto, using(crate::proofs::LoneLaws::lone_one, crate::proofs::LoneLaws::lone_none))]
pub fn lone_zero(mask: u32, word: u32) -> u32
    ensures { result ≡ lone_zero mask word }
{
    let lacks = lacking(mask, word);
    if lacks.is_power_of_two() { lacks } else { 0 }
}
