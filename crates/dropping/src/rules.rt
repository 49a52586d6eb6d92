// The rules of dropping.
ghost use Rattle.std.specs.Prelude.{◌≡◌, ◌++◌, IfOk};
ghost use Rattle.refusals.specs.Tables.{first_of};
ghost use Rattle.refusals.specs.Places.{first_bad, some_place};
ghost use Rattle.refusals.specs.Answers.{fine, found};
ghost use Rattle.circuit.specs.Gates.{gates_of};
ghost use Rattle.circuit.specs.Rules.{circuit_rows, vector_rows};
ghost use Rattle.circuit.specs.Checked.{gates_in, Has};
ghost use Rattle.dropping.specs.Rules.{bad_record, record_rows};

use crate::entries::Entry;
use circuit::checked::Circuit;
use circuit::rules::check_vector;
use faults::rules::check_fault;
use refusals::Refusal;

// The place of the first record of a list that is no fault of the circuit, if any is; numbers left over are one more bad record.
pub fn first_bad_record<E: Entry>(circuit: &Circuit, list: &[E]) -> Option<usize>
    ensures { result ≡ some_place
        (first_bad (bad_record circuit.now.lines (gates_in circuit.now)) (E.is_over list.now) (E.records list.now)) }
{
    let whole = E::count(list);
    for i in 0..whole {
        let bad = check_fault(circuit, E::read(list, i)).is_err();
        if bad {
            return Some(i + 1);
        }
    }
    if E::is_over(list) {
        Some(whole + 1)
    } else {
        None
    }
}

// Rule 9 of a list: the first bad record.
#[tactic(auto, using(refusals::proofs::Places::told_some, refusals::proofs::Places::told_where_none), unfolding(crate::specs::Rules::record_rows))]
pub fn check_records<E: Entry>(circuit: &Circuit, list: &[E]) -> Result<(), Refusal>
    ensures { found result ≡ first_of
        (record_rows (first_bad (bad_record circuit.now.lines (gates_in circuit.now)) (E.is_over list.now) (E.records list.now))) fine }
{
    match first_bad_record(circuit, list) {
        Some(place) => Err(Refusal::Fault(refusals::in_word(place))),
        None => Ok(()),
    }
}

// The rules of a circuit, a vector and a list.
#[tactic(auto, using(refusals::proofs::Tables::refused_on, refusals::proofs::Tables::fine_on))]
pub fn check_drop<'a, E: Entry>(
    lines: u32,
    gates: &'a [u32],
    vector: u32,
    list: &[E],
) -> Result<Circuit<'a>, Refusal>
    ensures rules { found result ≡ first_of ((circuit_rows lines gates.now ++ vector_rows lines vector)
        ++ record_rows (first_bad (bad_record lines (gates_of gates.now)) (E.is_over list.now) (E.records list.now))) fine }
    ensures circuit { IfOk result (Has lines gates.now) }
{
    let circuit = check_vector(lines, gates, vector)?;
    check_records(&circuit, list)?;
    Ok(circuit)
}
