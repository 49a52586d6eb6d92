// Texts compared: with the words of a line, and with numbers in decimal.
ghost use Rattle.std.specs.Prelude.{◌≡◌, ◌≤◌, length, take};
ghost use Rattle.text.specs.Texts.{same, distinct};
ghost use Rattle.text_words.specs.Words.{words_of};
ghost use Rattle.text_words.specs.Runs.{IsPlace};
ghost use Rattle.text.specs.Decimal.{is_number, decimal};

use crate::runs::Words;

// How many words of a line stand before the first that is the same, if any is.
pub fn place(line: &[u8], word: &[u8]) -> Option<usize>
    ensures { IsPlace (words_of line.now) word.now result }
{
    Words::of(line).position(|other| other == word)
}

// Whether none of a line's first words, so many, stands twice among them.
pub fn distinct(line: &[u8], words: usize) -> bool
    requires { words ≤ length (words_of line.now) }
    ensures { result ≡ distinct (take words (words_of line.now)) }
{
    Words::of(line)
        .take(words)
        .enumerate()
        .all(|(i, word)| place(line, word) == Some(i))
}

// Whether a text is a number in decimal with no zero in front.
pub fn is_number(text: &[u8]) -> bool
    ensures { result ≡ is_number text.now }
{
    text.iter().all(u8::is_ascii_digit) && (!text.starts_with(b"0") || text.len() == 1)
}

// Whether a text is a number in decimal, told from its last digit on.
pub fn is_decimal(text: &[u8], number: usize) -> bool
    ensures { result ≡ same text.now (decimal number) }
{
    let mut left = text;
    let mut x = number;
    while let Some((last, front)) = left.split_last() {
        if *last != b'0' + (x % 10) as u8 {
            return false;
        }
        if x < 10 {
            return front.is_empty();
        }
        left = front;
        x /= 10;
    }
    false
}
