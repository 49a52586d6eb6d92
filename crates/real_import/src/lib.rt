// Circuits read out of texts of the .real form.
#![tactic(auto)]

ghost use Rattle.std.specs.Prelude.{◌≡◌, ◌*◌, ◌≤◌, length};
ghost use Rattle.circuit.specs.Limits.{most_gates};
ghost use Rattle.real.specs.Reading.{reading};
ghost use Rattle.refusals.specs.Answers.{told};
ghost use Rattle.real_import.specs.Answers.{imported_values};
ghost use Rattle.real_import.specs.Promises.{import_tells, import_leaves};
ghost use Rattle.real_import.specs.Results.{Answers, HeldAnswers, SomeHeld};

use crate::lines::Form;
use circuit::limits::{GATE_WORDS, MOST_LINES};
use refusals::Refusal;

mod lines;
mod storing;

// A circuit that was read: its lines and its number of gates.
#[derive(Clone, Copy)]
pub struct Imported {
    pub lines: u32,
    pub gates: u32,
}

// A circuit whose gates are held, into the front of a list.
fn answer(form: Form, own: &[u32], gates: &mut [u32]) -> Result<Imported, Refusal>
    requires { (3 * most_gates ≤ length own.now) × SomeHeld form.lines own.now form.gates }
    ensures { HeldAnswers form.lines form.gates own.now gates.old result gates.new }
{
    let circuit = storing::check_read(form, own, gates.len())?;
    storing::store(circuit.gates, gates);
    Ok(Imported {
        lines: circuit.lines,
        gates: circuit.depth() as u32,
    })
}

// The same of a text, with lists for the keys of its names and for its gates.
fn import_by(
    text: &[u8],
    keys: &mut [u64],
    own: &mut [u32],
    gates: &mut [u32],
) -> Result<Imported, Refusal>
    requires { 3 * most_gates ≤ length own.old }
    ensures { Answers (reading text.now) gates.old result gates.new }
{
    let form = lines::read_text(text, keys, own)?;
    answer(form, own, gates)
}

// The circuit of a text, into the front of a list. A refused call changes nothing.
pub fn import(text: &[u8], gates: &mut [u32]) -> Result<Imported, Refusal>
    ensures { (told imported_values result ≡ import_tells text.now gates.old)
        × (gates.new ≡ import_leaves text.now gates.old) }
{
    let mut keys = [0; MOST_LINES as usize];
    let mut own = [0; GATE_WORDS];
    import_by(text, &mut keys, &mut own, gates)
}
