// The rules of making a set: a check function for each, and the most vectors that a compact set has.
ghost use Rattle.std.specs.Prelude.{◌≡◌, IfOk};
ghost use Rattle.refusals.specs.Tables.{first_of};
ghost use Rattle.refusals.specs.Answers.{fine, found};
ghost use Rattle.circuit.specs.Checked.{Has, gates_in};
ghost use Rattle.testsets.specs.Sets.{bound};
ghost use Rattle.testsets.specs.Rules.{backward_rows, compact_rows};

use crate::limits::MOST_TRIED_LINES;
use circuit::checked::Circuit;
use circuit::rules::check_circuit;
use faults::sites::site_count;
use refusals::{Refusal, refuse_when};

// The most vectors that a compact set has.
fn bound(circuit: &Circuit) -> u32
    ensures { result ≡ bound circuit.now.lines (gates_in circuit.now) }
{
    2 + site_count(circuit).ilog2()
}

// The rules of a circuit and a room for its backward set.
#[tactic(auto, using(refusals::proofs::Tables::turns), unfolding(crate::specs::Rules::backward_rows))]
pub fn check_backward<'a>(lines: u32, gates: &'a [u32], room: usize) -> Result<Circuit<'a>, Refusal>
    ensures rules { found result ≡ first_of (backward_rows lines gates.now room) fine }
    ensures circuit { IfOk result (Has lines gates.now) }
{
    let circuit = check_circuit(lines, gates)?;
    refuse_when(room < circuit.depth() + 2, Refusal::Room)?;
    Ok(circuit)
}

// The rules of a circuit and a room for its compact set.
#[tactic(auto, using(refusals::proofs::Tables::turns), unfolding(crate::specs::Rules::compact_rows))]
pub fn check_compact<'a>(lines: u32, gates: &'a [u32], room: usize) -> Result<Circuit<'a>, Refusal>
    ensures rules { found result ≡ first_of (compact_rows lines gates.now room) fine }
    ensures circuit { IfOk result (Has lines gates.now) }
{
    let circuit = check_circuit(lines, gates)?;
    refuse_when(MOST_TRIED_LINES < lines, Refusal::ManyLines)?;
    refuse_when(room < bound(&circuit) as usize, Refusal::Room)?;
    Ok(circuit)
}
