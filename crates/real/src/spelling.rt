// Bytes and words that may stand in a line.
ghost use Rattle.std.specs.Prelude.{◌≡◌, ◌&&◌, length, eqb};
ghost use Rattle.text.specs.Texts.{every, same};
ghost use Rattle.text_words.specs.Words.{words_of};
ghost use Rattle.real.specs.Form.{is_plain, is_name_byte, is_name};

use text_words::runs::{self, Words};

#[tactic(auto, unfolding(crate::specs::Form::is_plain))]
fn is_plain(b: &u8) -> bool
    ensures { result ≡ is_plain b.now }
{
    matches!(*b, b'\t' | b' '..=b'~')
}

#[tactic(auto, unfolding(crate::specs::Form::is_letter, text::specs::Decimal::is_digit))]
fn is_name_byte(b: &u8) -> bool
    ensures { result ≡ is_name_byte b.now }
{
    b.is_ascii_alphanumeric() || *b == b'_'
}

// Whether a line has no byte that is forbidden.
pub fn all_plain(line: &[u8]) -> bool
    ensures { result ≡ every is_plain line.now }
{
    line.iter().all(is_plain)
}

// Whether a word is a name.
pub fn is_name(word: &[u8]) -> bool
    ensures { result ≡ is_name word.now }
{
    word.iter().all(is_name_byte) && word.len() <= 8
}

// Whether every word of a line is a name.
pub fn all_names(line: &[u8]) -> bool
    ensures { result ≡ every is_name (words_of line.now) }
{
    Words::of(line).all(is_name)
}

// Whether a text is so many hyphens.
pub fn all_hyphens(word: &[u8], number: usize) -> bool
    ensures { result ≡ (eqb (length word.now) number && every (eqb 45) word.now) }
{
    word.len() == number && word.iter().all(|b| *b == b'-')
}

// A word that stands alone.
pub fn alone(word: &[u8], rest: &[u8], wanted: &[u8]) -> bool
    ensures { result ≡ (same word.now wanted.now && eqb (length (words_of rest.now)) 0) }
{
    word == wanted && runs::count_words(rest) == 0
}
