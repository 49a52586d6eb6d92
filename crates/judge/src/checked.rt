// The verdict on a set for one class, by marks of its own.
ghost use Rattle.std.specs.Prelude.{◌≡◌};
ghost use Rattle.refusals.specs.Tables.Told.{answered};
ghost use Rattle.circuit.specs.Checked.{gates_in};
ghost use Rattle.faults.specs.Kinds.{gate_class_number, class_number};
ghost use Rattle.judge.specs.Judging.{set_verdict};
ghost use Rattle.judge.specs.Answers.{verdict_values};

use crate::{Verdict, tallies};
use circuit::checked::Circuit;
use circuit::limits::MOST_GATES;
use faults::classes::{Class, GateClass};
use marking::marks;
use marking::marks::LevelMarks;

// For class 1.
#[tactic(auto, using(crate::proofs::SetLaws::judging))]
fn judge_levels(circuit: &Circuit, vectors: &[u32]) -> Verdict
    ensures { answered (verdict_values result)
        ≡ set_verdict circuit.now.lines (gates_in circuit.now) vectors.now 1 }
{
    let mut marks = LevelMarks::none();
    for vector in vectors {
        marks.mark(circuit, *vector);
    }
    tallies::tally_levels(circuit, &marks)
}

// For a class of gate faults.
#[tactic(auto, using(crate::proofs::SetLaws::judging))]
fn judge_gates(class: GateClass, circuit: &Circuit, vectors: &[u32]) -> Verdict
    ensures { answered (verdict_values result)
        ≡ set_verdict circuit.now.lines (gates_in circuit.now) vectors.now (gate_class_number class) }
{
    let mut words = [0; MOST_GATES];
    for input in vectors {
        marks::mark_gates(class, &mut words, circuit, *input);
    }
    tallies::tally_gates(class, circuit, &words)
}

// For any class.
pub fn judge_class(circuit: &Circuit, vectors: &[u32], class: Class) -> Verdict
    ensures { answered (verdict_values result)
        ≡ set_verdict circuit.now.lines (gates_in circuit.now) vectors.now (class_number class) }
{
    match class {
        Class::StuckAt => judge_levels(circuit, vectors),
        Class::AtGate(class) => judge_gates(class, circuit, vectors),
    }
}
