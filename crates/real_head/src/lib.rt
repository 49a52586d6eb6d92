// The head of a text, up to .begin, line by line. Nothing is stored: what was read is told by slices of the text.
#![tactic(auto)]

ghost use Rattle.std.specs.Prelude.{◌≡◌, ◌&&◌, length, eqb, false};
ghost use Rattle.refusals.specs.Places.{in_word};
ghost use Rattle.refusals.specs.declared.Refusal.TheVariants.{Text};
ghost use Rattle.text.specs.Texts.{ascii, same};
ghost use Rattle.text_words.specs.Words.{words_of};
ghost use Rattle.real.specs.Form.{is_constants, next, step_of};
ghost use Rattle.real.specs.Form.Stage.{versioned, counted, named};
ghost use Rattle.real_head.specs.Stages.{parts_in, stage_of, parts_step, turn_step, is_variables, TakenFrom, LedFrom, HeadRead};

use crate::names::NameLine;
use real::spelling;
use refusals::{Refusal, in_word};
use text_words::{runs, same};

pub mod names;

// The optional parts that may still come.
#[derive(Clone, Copy)]
pub struct Parts {
    pub inputs: bool,
    pub outputs: bool,
    pub garbage: bool,
    pub constants: bool,
}

// Which line is due, and what was read so far.
#[derive(Clone, Copy)]
pub enum Due<'a> {
    Version,
    Numvars,
    Variables { number: &'a [u8] },
    Part { names: NameLine<'a>, parts: Parts },
}

// A line that is of the form leads on, or it is .begin and ends the head.
#[derive(Clone, Copy)]
pub enum Turn<'a> {
    Goes(Due<'a>),
    Begins(NameLine<'a>),
}

// The head: its names, and what follows .begin, with the number of its first line.
#[derive(Clone, Copy)]
pub struct Head<'a> {
    pub names: NameLine<'a>,
    pub rest: &'a [u8],
    pub line: usize,
}

// The number of the first line that is not of the form; after the last line .begin may be missing.
#[derive(Clone, Copy, PartialEq, Eq)]
pub struct FaultyLine {
    pub line: usize,
}

impl From<FaultyLine> for Refusal {
    ghost from_gives = { λ fault refusal. refusal ≡ Text (in_word fault.line) };

    fn from(fault: FaultyLine) -> Refusal {
        Refusal::Text(in_word(fault.line))
    }
}

// .numvars and one number.
#[tactic(auto, using(text::proofs::SameLaws::same_is_pointwise, text_words::proofs::PartLaws::part_in), unfolding(text::specs::Texts::ascii, real::specs::Form::next))]
fn numvars<'a>(word: &[u8], rest: &'a [u8]) -> Option<Turn<'a>>
    ensures step { turn_step result ≡ next versioned word.now (words_of rest.now) }
    ensures within { TakenFrom rest.now result }
{
    if word != b".numvars".as_slice() {
        return None;
    }
    let number = runs::only_word(rest)?;
    if !same::is_number(number) {
        return None;
    }
    Some(Turn::Goes(Due::Variables { number }))
}

// Whether a line is .variables and as many names as the number says.
#[tactic(auto, using(text::proofs::SameLaws::same_is_pointwise, std::proofs::lemmas::List::take_all), unfolding(text::specs::Texts::ascii))]
fn is_variables(number: &[u8], word: &[u8], rest: &[u8]) -> bool
    ensures { result ≡ is_variables number.now word.now (words_of rest.now) }
{
    if word != b".variables".as_slice() || !spelling::all_names(rest) {
        return false;
    }
    let count = runs::count_words(rest);
    same::distinct(rest, count) && same::is_decimal(number, count)
}

// .variables and its names: any optional part may come.
#[tactic(auto, unfolding(real::specs::Form::next, real::specs::Form::optional_parts, crate::specs::Stages::parts_in))]
fn variables<'a>(number: &[u8], word: &[u8], rest: &'a [u8]) -> Option<Turn<'a>>
    ensures step { turn_step result ≡ next (counted number.now) word.now (words_of rest.now) }
    ensures within { TakenFrom rest.now result }
{
    if !is_variables(number, word, rest) {
        return None;
    }
    Some(Turn::Goes(Due::Part {
        names: NameLine { line: rest },
        parts: Parts {
            inputs: true,
            outputs: true,
            garbage: true,
            constants: true,
        },
    }))
}

// Whether what follows .constants is one word of a hyphen for each name.
#[tactic(auto, unfolding(real::specs::Form::is_constants))]
fn is_constants(names: &[u8], rest: &[u8]) -> bool
    ensures { result ≡ is_constants (length (words_of names.now)) (words_of rest.now) }
{
    runs::only_word(rest).is_some_and(|word| spelling::all_hyphens(word, runs::count_words(names)))
}

// The parts that may come after an optional part.
fn parts_after(parts: Parts, names: &[u8], word: &[u8], rest: &[u8]) -> Option<Parts>
    requires { (same word.now (ascii ".begin") && eqb (length (words_of rest.now)) 0) ≡ false }
    ensures { parts_step (words_of names.now) result ≡ next (named (words_of names.now) (parts_in parts)) word.now (words_of rest.now) }
{
    if word == b".inputs".as_slice() {
        return parts.inputs.then_some(Parts {
            inputs: false,
            ..parts
        });
    }
    if word == b".outputs".as_slice() {
        return parts.outputs.then_some(Parts {
            outputs: false,
            ..parts
        });
    }
    if word == b".garbage".as_slice() {
        return parts.garbage.then_some(Parts {
            garbage: false,
            ..parts
        });
    }
    if word == b".constants".as_slice() && is_constants(names, rest) {
        return parts.constants.then_some(Parts {
            constants: false,
            ..parts
        });
    }
    None
}

// .begin, or an optional part.
#[tactic(auto, unfolding(text::specs::Texts::ascii, real::specs::Form::next))]
fn part<'a>(names: NameLine<'a>, parts: Parts, word: &[u8], rest: &[u8]) -> Option<Turn<'a>>
    ensures step { turn_step result ≡ next (named (words_of names.entry.line.now) (parts_in parts)) word.now (words_of rest.now) }
    ensures within { TakenFrom names.entry.line.now result }
{
    if spelling::alone(word, rest, b".begin") {
        return Some(Turn::Begins(names));
    }
    let parts = parts_after(parts, names.line, word, rest)?;
    Some(Turn::Goes(Due::Part { names, parts }))
}

// A line of a first word and more.
#[tactic(auto, using(text::proofs::SameLaws::same_is_pointwise, crate::proofs::LineLaws::version_within), unfolding(text::specs::Texts::ascii, real::specs::Form::next))]
fn due_turn<'a>(due: Due<'a>, word: &[u8], rest: &'a [u8]) -> Option<Turn<'a>>
    ensures step { turn_step result ≡ next (stage_of due.entry) word.now (words_of rest.now) }
    ensures within { LedFrom due.entry rest.now result }
{
    match due {
        Due::Version => (word == b".version".as_slice()).then_some(Turn::Goes(Due::Numvars)),
        Due::Numvars => numvars(word, rest),
        Due::Variables { number } => variables(number, word, rest),
        Due::Part { names, parts } => part(names, parts, word, rest),
    }
}

// One line.
#[tactic(auto, using(crate::proofs::LineLaws::head_due, crate::proofs::LineLaws::first_byte), unfolding(real::specs::Form::step_of, real::specs::Form::step_with))]
fn line_turn<'a>(due: Due<'a>, line: &'a [u8]) -> Option<Turn<'a>>
    ensures step { turn_step result ≡ step_of (stage_of due.entry) line.now }
    ensures within { LedFrom due.entry line.now result }
{
    let Some((word, rest)) = runs::next_word(line) else {
        return Some(Turn::Goes(due));
    };
    if word.starts_with(b"#") {
        return Some(Turn::Goes(due));
    }
    if !spelling::all_plain(line) {
        return None;
    }
    due_turn(due, word, rest)
}

// The lines up to .begin.
pub fn read_head(text: &[u8]) -> Result<Head<'_>, FaultyLine>
    ensures { HeadRead text.now result }
{
    let mut left = text;
    let mut line = 1;
    let mut due = Due::Version;
    while let Some((here, rest)) = runs::next_line(left) {
        match line_turn(due, here) {
            None => return Err(FaultyLine { line }),
            Some(Turn::Begins(names)) => {
                return Ok(Head {
                    names,
                    rest,
                    line: line + 1,
                });
            }
            Some(Turn::Goes(then)) => {
                due = then;
            }
        }
        left = rest;
        line += 1;
    }
    Err(FaultyLine { line })
}
