// The rules of a circuit, a state and a level: a check function for each table.
ghost use Rattle.std.specs.Prelude.{◌≡◌, [], ◌∷◌, ◌++◌, not, ◌/◌, ◌≤◌, length, eqb, IfOk};
ghost use Rattle.refusals.specs.Tables.{first_of};
ghost use Rattle.refusals.specs.Tables.Row.{refuse◌at◌when◌};
ghost use Rattle.refusals.specs.Answers.{fine, found};
ghost use Rattle.refusals.specs.Places.{in_word, some_place};
ghost use Rattle.circuit.specs.Limits.{most_lines, most_gates, most_vectors};
ghost use Rattle.circuit.specs.Rules.{bad_lines, bad_counts, bad_gate, first_bad_gate, first_bad_vector};
ghost use Rattle.circuit.specs.Rules.{circuit_set_rows, circuit_rows, set_rows, vector_rows, run_rows};
ghost use Rattle.circuit.specs.Checked.{Has};

use crate::checked::Circuit;
use crate::limits::{MOST_GATES, MOST_LINES, MOST_VECTORS};
use crate::{Gate, checked, numbers};
use refusals::{Refusal, in_word, refuse_when};
use words;

// Whether a circuit has no line, or more than it may have.
pub fn bad_lines(lines: u32) -> bool
    ensures { result ≡ bad_lines lines }
{
    lines < 1 || MOST_LINES < lines
}

// Whether there are more gates or more vectors than there may be.
pub fn bad_counts(gates: usize, vectors: usize) -> bool
    ensures { result ≡ bad_counts gates vectors }
{
    MOST_GATES < gates || MOST_VECTORS < vectors
}

// Whether a gate is none of a circuit of so many lines.
#[tactic(auto, unfolding(crate::specs::Rules::bad_gate))]
pub fn bad_gate(lines: u32, gate: Gate) -> bool
    requires { lines ≤ most_lines }
    ensures { result ≡ bad_gate lines gate }
{
    // In one condition with these, the last would cost a shift more a gate.
    if !words::checked::below(gate.controls, lines) || gate.spare != 0 || lines <= gate.target {
        return true;
    }
    checked::is_control(gate, gate.target)
}

// The number of the first bad gate, if any is; words left over are one more bad gate.
pub fn first_bad_gate(lines: u32, gates: &[u32]) -> Option<usize>
    requires { lines ≤ most_lines }
    ensures { result ≡ some_place (first_bad_gate lines gates.now) }
{
    let whole = gates.len() / 3;
    for i in 0..whole {
        let number = i + 1;
        if bad_gate(lines, checked::gate_at(gates, numbers::gate(number))) {
            return Some(number);
        }
    }
    if gates.len() % 3 != 0 {
        Some(whole + 1)
    } else {
        None
    }
}

// Rule 7: the first bad gate.
#[tactic(auto, using(refusals::proofs::Places::told_some, refusals::proofs::Places::told_where_none))]
pub fn check_gates(lines: u32, gates: &[u32]) -> Result<(), Refusal>
    requires { lines ≤ most_lines }
    ensures { found result ≡ first_of
        (refuse 7 at in_word (first_bad_gate lines gates.now) when not (eqb (first_bad_gate lines gates.now) 0) ∷ []) fine }
{
    match first_bad_gate(lines, gates) {
        Some(number) => Err(Refusal::Gate(in_word(number))),
        None => Ok(()),
    }
}

// The place of the first vector of 2 ^ n or more, if any is.
pub fn first_bad_vector(lines: u32, vectors: &[u32]) -> Option<usize>
    requires { lines ≤ most_lines }
    ensures { result ≡ some_place (first_bad_vector lines vectors.now) }
{
    for i in 0..vectors.len() {
        if !words::checked::below(vectors[i], lines) {
            return Some(i + 1);
        }
    }
    None
}

// Rule 8 of the vectors of a set: the first bad one.
#[tactic(auto, using(refusals::proofs::Places::told_some, refusals::proofs::Places::told_where_none))]
pub fn check_vectors(lines: u32, vectors: &[u32]) -> Result<(), Refusal>
    requires { lines ≤ most_lines }
    ensures { found result ≡ first_of
        (refuse 8 at in_word (first_bad_vector lines vectors.now) when not (eqb (first_bad_vector lines vectors.now) 0) ∷ []) fine }
{
    match first_bad_vector(lines, vectors) {
        Some(place) => Err(Refusal::Vector(in_word(place))),
        None => Ok(()),
    }
}

// The rules of a circuit with a set of so many vectors.
#[tactic(auto, using(refusals::proofs::Tables::turns, crate::proofs::RuleLaws::rows), unfolding(crate::specs::Rules::circuit_set_rows))]
pub fn check_circuit_set<'a>(
    lines: u32,
    gates: &'a [u32],
    vectors: usize,
) -> Result<Circuit<'a>, Refusal>
    ensures rules { found result ≡ first_of (circuit_set_rows lines gates.now vectors) fine }
    ensures circuit { IfOk result (Has lines gates.now) }
{
    refuse_when(bad_lines(lines), Refusal::Lines)?;
    refuse_when(bad_counts(gates.len() / 3, vectors), Refusal::Counts)?;
    check_gates(lines, gates)?;
    Ok(Circuit { lines, gates })
}

// The rules of a circuit.
#[tactic(auto, using(refusals::proofs::Tables::turns), unfolding(crate::specs::Rules::circuit_rows))]
pub fn check_circuit<'a>(lines: u32, gates: &'a [u32]) -> Result<Circuit<'a>, Refusal>
    ensures rules { found result ≡ first_of (circuit_rows lines gates.now) fine }
    ensures circuit { IfOk result (Has lines gates.now) }
{
    check_circuit_set(lines, gates, 0)
}

// The rules of a circuit and a set.
#[tactic(auto, using(refusals::proofs::Tables::turns, crate::proofs::RuleLaws::circuit_set_ok, crate::proofs::RuleLaws::vector_word), unfolding(crate::specs::Rules::set_rows))]
pub fn check_set<'a>(lines: u32, gates: &'a [u32], vectors: &[u32]) -> Result<Circuit<'a>, Refusal>
    ensures rules { found result ≡ first_of (set_rows lines gates.now vectors.now) fine }
    ensures circuit { IfOk result (Has lines gates.now) }
{
    let circuit = check_circuit_set(lines, gates, vectors.len())?;
    check_vectors(circuit.lines, vectors)?;
    Ok(circuit)
}

// The rules of a circuit and one vector or state.
#[tactic(auto, using(refusals::proofs::Tables::turns), unfolding(crate::specs::Rules::vector_rows))]
pub fn check_vector<'a>(lines: u32, gates: &'a [u32], vector: u32) -> Result<Circuit<'a>, Refusal>
    ensures rules { found result ≡ first_of (circuit_rows lines gates.now ++ vector_rows lines vector) fine }
    ensures circuit { IfOk result (Has lines gates.now) }
{
    let circuit = check_circuit(lines, gates)?;
    refuse_when(!words::checked::below(vector, lines), Refusal::Vector(1))?;
    Ok(circuit)
}

// The rules of a run.
#[tactic(auto, using(refusals::proofs::Tables::turns), unfolding(crate::specs::Rules::run_rows, crate::specs::Rules::level_rows))]
pub fn check_run<'a>(
    lines: u32,
    gates: &'a [u32],
    level: u32,
    state: u32,
) -> Result<Circuit<'a>, Refusal>
    ensures rules { found result ≡ first_of (run_rows lines gates.now level state) fine }
    ensures circuit { IfOk result (Has lines gates.now) }
{
    let circuit = check_vector(lines, gates, state)?;
    refuse_when(circuit.depth() < level as usize, Refusal::Level)?;
    Ok(circuit)
}
