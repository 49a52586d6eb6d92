// The words of a gate: its token, its controls and its target.
#![tactic(auto)]

ghost use Rattle.std.specs.Prelude.{◌≡◌, ◌≤◌, length};
ghost use Rattle.text.specs.Texts.{every, among};
ghost use Rattle.text_words.specs.Words.{words_of};
ghost use Rattle.real_gates.specs.Tokens.{token_of};
ghost use Rattle.real_gates.specs.Names.{names_in};
ghost use Rattle.real_gates.specs.Gates.{ControlsRead, GateRead};

use keys::Names;
use text_words::runs::Words;
use text_words::{runs, same};
use words;

pub mod keys;

// A gate: a mask of control lines, and the target line.
#[derive(Clone, Copy)]
pub struct Gate {
    pub controls: u32,
    pub target: u32,
}

// The number of lines that the token of a gate tells, if it is a token and as many words stand after it.
#[tactic(auto, using(crate::proofs::TokenLaws::token_other, crate::proofs::TokenLaws::token_told))]
pub fn token_of(token: &[u8], rest: &[u8]) -> Option<usize>
    ensures { result ≡ token_of token.now (words_of rest.now) }
{
    let count = runs::count_words(rest);
    let number = token.strip_prefix(b"t")?;
    (1 <= count && same::is_decimal(number, count)).then_some(count)
}

// The mask of the next words, so many, as controls of a circuit with at most 32 lines.
fn read_controls(names: &Names, left: &mut Words, wanted: usize) -> Option<u32>
    requires { (names.now.count ≤ 32) × (wanted ≤ length (words_of left.old.rest.now)) }
    ensures { ControlsRead (names_in names.now) (words_of left.old.rest.now) wanted result (words_of left.new.rest.now) }
{
    let mut mask = 0;
    for _ in 0..wanted {
        let line = names.place(left.next()?)? as u32;
        if words::checked::value(mask, line) == 1 {
            return None;
        }
        mask = words::checked::flip(mask, line);
    }
    Some(mask)
}

// The words of a gate of a circuit with at most 32 lines.
fn narrow(names: &Names, rest: &[u8], words: usize) -> Option<Gate>
    requires { (names.now.count ≤ 32) × ((1 ≤ words) × (words ≡ length (words_of rest.now))) }
    ensures { GateRead (names_in names.now) (words_of rest.now) result }
{
    let mut left = Words::of(rest);
    let controls = read_controls(names, &mut left, words - 1)?;
    let target = names.place(left.next()?)? as u32;
    Some(Gate { controls, target })
}

// Whether every word of a line is declared.
fn all_declared(names: &Names, line: &[u8]) -> bool
    ensures { result ≡ every (λ w. among w (names_in names.now)) (words_of line.now) }
{
    Words::of(line).all(|word| names.place(word).is_some())
}

// The words of a gate of any circuit: whether they are one, and of at most 32 lines which.
pub fn gate_of(names: &Names, rest: &[u8], words: usize) -> Option<Gate>
    requires { (1 ≤ words) × (words ≡ length (words_of rest.now)) }
    ensures { GateRead (names_in names.now) (words_of rest.now) result }
{
    if names.count <= 32 {
        return narrow(names, rest, words);
    }
    (all_declared(names, rest) && same::distinct(rest, words - 1)).then_some(Gate {
        controls: 0,
        target: 0,
    })
}
