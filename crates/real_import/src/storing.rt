// Gates that were read: held in words of the call's own, checked, and stored in the room.
ghost use Rattle.std.specs.Prelude.{◌≡◌, ◌*◌, ◌≤◌, length, take, IfOk};
ghost use Rattle.refusals.specs.Places.{in_word};
ghost use Rattle.basics.specs.Lists.{onto};
ghost use Rattle.circuit.specs.Limits.{most_gates};
ghost use Rattle.circuit.specs.Checked.{Has};
ghost use Rattle.real_import.specs.Lines.{held_after};
ghost use Rattle.real_import.specs.Results.{ReadChecked};

use crate::lines::Form;
use circuit::checked::Circuit;
use circuit::rules::{self, bad_counts, bad_lines};
use real_gates::Gate;
use refusals::{Refusal, in_word, refuse_when};

// Holds a gate after so many others, if there is room for it.
pub fn hold(own: &mut [u32], gates: usize, gate: Gate)
    ensures { own.new ≡ held_after own.old gates gate.controls gate.target }
{
    if gates < own.len() / 3 {
        let at = 3 * gates;
        own[at..at + 3].copy_from_slice(&[gate.controls, 0, gate.target]);
    }
}

// The rules of a circuit whose gates are held, and of the room for them.
pub fn check_read<'a>(form: Form, own: &'a [u32], room: usize) -> Result<Circuit<'a>, Refusal>
    requires { 3 * most_gates ≤ length own.now }
    ensures rules { ReadChecked form.lines form.gates own.now room result }
    ensures circuit { IfOk result (Has (in_word form.lines) (take (3 * form.gates) own.now)) }
{
    let lines = in_word(form.lines);
    refuse_when(bad_lines(lines), Refusal::Lines)?;
    refuse_when(bad_counts(form.gates, 0), Refusal::Counts)?;
    let circuit = rules::check_circuit(lines, &own[..3 * form.gates])?;
    refuse_when(room < circuit.gates.len(), Refusal::Room)?;
    Ok(circuit)
}

// Words into the front of a list.
pub fn store(words: &[u32], room: &mut [u32])
    requires { length words.now ≤ length room.old }
    ensures { room.new ≡ onto words.now room.old }
{
    room[..words.len()].copy_from_slice(words);
}
