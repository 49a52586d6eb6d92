// The lines of a text and the words of a line, one after the other: each with what follows it.
ghost use Rattle.std.specs.Prelude.{◌≡◌, ◌≢◌, ◌≤◌, length, [], ◌∷◌, MatchOption, IfSome};
ghost use Rattle.std.specs.Iterator.{YieldsFirstRef, item_count};
ghost use Rattle.text_words.specs.Words.{is_blank, lines_of, words_of};
ghost use Rattle.text_words.specs.Runs.{IsFirstLine, IsFirstWord, IsPart};

// The words of a line that are still to come.
#[derive(Drop)]
pub struct Words<'a> {
    pub rest: &'a [u8],
}

#[tactic(auto, unfolding(crate::specs::Words::is_blank))]
pub fn is_blank(b: u8) -> bool
    ensures { result ≡ is_blank b }
{
    b == b' ' || b == b'\t'
}

// The first line of a text, without its end, and what follows it.
pub fn next_line(text: &[u8]) -> Option<(&[u8], &[u8])>
    ensures { MatchOption result (lines_of text.now ≡ []) (λ found. IsFirstLine text.now found.0.now found.1.now) }
{
    if text.is_empty() {
        return None;
    }
    let Some(end) = text.iter().position(|b| *b == b'\n') else {
        return Some((text, &[]));
    };
    let line = &text[..end];
    Some((line.strip_suffix(b"\r").unwrap_or(line), &text[end + 1..]))
}

// The first word of a line, and what follows it.
pub fn next_word(line: &[u8]) -> Option<(&[u8], &[u8])>
    ensures { MatchOption result (words_of line.now ≡ []) (λ found. IsFirstWord line.now found.0.now found.1.now) }
{
    let from = line.iter().position(|b| !is_blank(*b))?;
    let ink = &line[from..];
    let end = ink.iter().position(|b| is_blank(*b)).unwrap_or(ink.len());
    Some(ink.split_at(end))
}

impl<'a> Words<'a> {
    // All words of a line.
    #[tactic(auto, using(crate::proofs::RunLaws::words_most))]
    pub fn of(line: &'a [u8]) -> Words<'a>
        ensures words { words_of result.rest.now ≡ words_of line.now }
        ensures most { length (words_of result.rest.now) ≤ length line.now }
    {
        Words { rest: line }
    }
}

impl<'a> Iterator for Words<'a> {
    type Item = &'a [u8];

    ghost next_gives = { YieldsFirstRef (λ s. words_of s.rest.now) };

    ghost remaining = { item_count (λ s. words_of s.rest.now) };

    fn next(&mut self) -> Option<&'a [u8]> {
        let (word, rest) = next_word(self.rest)?;
        self.rest = rest;
        Some(word)
    }
}

// The number of words.
pub fn count_words(line: &[u8]) -> usize
    ensures { result ≡ length (words_of line.now) }
{
    Words::of(line).count()
}

// The word of a line that has no other.
#[tactic(auto, using(crate::proofs::PartLaws::word_part))]
pub fn only_word(line: &[u8]) -> Option<&[u8]>
    ensures only { MatchOption result (length (words_of line.now) ≢ 1) (λ word. words_of line.now ≡ word.now ∷ []) }
    ensures part { IfSome result (λ word. IsPart line.now word.now) }
{
    let (word, rest) = next_word(line)?;
    if next_word(rest).is_some() {
        return None;
    }
    Some(word)
}
