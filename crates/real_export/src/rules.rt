// The rules of an export.
ghost use Rattle.std.specs.Prelude.{◌≡◌, IfOk};
ghost use Rattle.refusals.specs.Tables.{first_of};
ghost use Rattle.refusals.specs.Answers.{fine, found};
ghost use Rattle.circuit.specs.Checked.{Has};
ghost use Rattle.real_export.specs.Rules.{export_rows};

use crate::writing;
use circuit::checked::Circuit;
use circuit::rules::check_circuit;
use refusals::{Refusal, refuse_when};

// The rules of a circuit that is written into room for so many bytes.
#[tactic(auto, using(refusals::proofs::Tables::turns), unfolding(crate::specs::Rules::export_rows))]
pub fn check_export<'a>(lines: u32, gates: &'a [u32], room: usize) -> Result<Circuit<'a>, Refusal>
    ensures rules { found result ≡ first_of (export_rows lines gates.now room) fine }
    ensures circuit { IfOk result (Has lines gates.now) }
{
    let circuit = check_circuit(lines, gates)?;
    refuse_when(room < writing::text_length(&circuit), Refusal::Room)?;
    Ok(circuit)
}
