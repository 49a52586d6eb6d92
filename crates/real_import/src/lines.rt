// The lines of a text: its head, then gates up to .end. Gates are held while there is room for them, and counted beyond.
ghost use Rattle.std.specs.Prelude.{◌≡◌, ◌+◌, ◌<◌, ◌≤◌, ◌^◌, length};
ghost use Rattle.text_words.specs.Words.{lines_of, words_of};
ghost use Rattle.real.specs.Form.{is_other};
ghost use Rattle.real.specs.Form.Stage.{begun};
ghost use Rattle.real.specs.Reading.{read_from, reading};
ghost use Rattle.real_gates.specs.Names.{names_in};
ghost use Rattle.real_import.specs.declared.lines.Due.TheVariants.{Gate};
ghost use Rattle.real_import.specs.Lines.{gates_so_far, Counts, Turned, FormRead};

use crate::storing;
use real::spelling;
use real_gates::keys::Names;
use refusals::{Refusal, in_word};
use text_words::runs;

// What is due, a gate or .end, or nothing more; with the number of gates so far.
#[derive(Clone, Copy)]
pub enum Due {
    Gate(usize),
    Nothing(usize),
}

// A text of the form: its number of lines and of gates.
#[derive(Clone, Copy)]
pub struct Form {
    pub lines: usize,
    pub gates: usize,
}

// Whether a word begins with another letter than t.
#[tactic(auto, unfolding(real::specs::Form::is_other, real::specs::Form::is_letter, text::specs::Texts::begins))]
fn is_other(word: &[u8]) -> bool
    ensures { result ≡ is_other word.now }
{
    word.first()
        .is_some_and(|first| first.is_ascii_alphabetic() && *first != b't')
}

// A line that is not skipped, where a gate or .end is due.
fn gate_turn(
    names: &Names,
    gates: usize,
    here: &[u8],
    word: &[u8],
    rest: &[u8],
    line: usize,
    own: &mut [u32],
) -> Result<Due, Refusal>
    requires { (gates < 2 ^ 63) × Counts here.now word.now rest.now }
    ensures { Turned (names_in names.now) (Gate gates) here.now line own.old result own.new }
{
    let place = in_word(line);
    if is_other(word) {
        return Err(Refusal::OtherGate(place));
    }
    if !spelling::all_plain(here) {
        return Err(Refusal::Text(place));
    }
    if spelling::alone(word, rest, b".end") {
        return Ok(Due::Nothing(gates));
    }
    let Some(words) = real_gates::token_of(word, rest) else {
        return Err(Refusal::Text(place));
    };
    let Some(gate) = real_gates::gate_of(names, rest, words) else {
        return Err(Refusal::Text(place));
    };
    storing::hold(own, gates, gate);
    Ok(Due::Gate(gates + 1))
}

// A line after .begin.
#[tactic(auto, using(real_head::proofs::LineLaws::first_byte, real::proofs::StepLaws::step_blank, real::proofs::StepLaws::step_comment, crate::proofs::LineLaws::leads_on, crate::proofs::GateLaws::line_after))]
fn line_turn(
    names: &Names,
    due: Due,
    here: &[u8],
    line: usize,
    own: &mut [u32],
) -> Result<Due, Refusal>
    requires { gates_so_far due < 2 ^ 63 }
    ensures { Turned (names_in names.now) due here.now line own.old result own.new }
{
    let Some((word, rest)) = runs::next_word(here) else {
        return Ok(due);
    };
    if word.starts_with(b"#") {
        return Ok(due);
    }
    match due {
        Due::Gate(gates) => gate_turn(names, gates, here, word, rest, line, own),
        Due::Nothing(_) => Err(Refusal::Text(in_word(line))),
    }
}

// The lines after .begin; `first` is the number of the first. Not inlined, so that its loops have the registers.
#[inline(never)]
fn read_gates(names: &Names, text: &[u8], first: usize, own: &mut [u32]) -> Result<Form, Refusal>
    requires { first + length text.now ≤ 2 ^ 63 }
    ensures { FormRead (read_from first (begun (names_in names.now)) (lines_of text.now)) result own.new }
{
    let mut left = text;
    let mut line = first;
    let mut due = Due::Gate(0);
    while let Some((here, rest)) = runs::next_line(left) {
        due = line_turn(names, due, here, line, own)?;
        left = rest;
        line += 1;
    }
    match due {
        Due::Nothing(gates) => Ok(Form {
            lines: names.count,
            gates,
        }),
        Due::Gate(_) => Err(Refusal::Text(in_word(line))),
    }
}

// The whole text. The keys of its names and its gates are held.
pub fn read_text(text: &[u8], keys: &mut [u64], own: &mut [u32]) -> Result<Form, Refusal>
    ensures { FormRead (reading text.now) result own.new }
{
    let head = real_head::read_head(text)?;
    let names = Names::remember(head.names.line, keys);
    read_gates(&names, head.rest, head.line, own)
}
