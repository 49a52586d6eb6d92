// Verdicts on marks.
ghost use Rattle.std.specs.Prelude.{◌≡◌};
ghost use Rattle.refusals.specs.Tables.Told.{answered};
ghost use Rattle.circuit.specs.Checked.{gates_in};
ghost use Rattle.faults.specs.Classes.{class_faults};
ghost use Rattle.faults.specs.Kinds.{gate_class_number};
ghost use Rattle.marking.specs.Marks.{level_marked, gate_marked};
ghost use Rattle.judge.specs.Judging.{verdict};
ghost use Rattle.judge.specs.Answers.{verdict_values};

use crate::Verdict;
use circuit::checked::Circuit;
use circuit::limits::MOST_GATES;
use faults::classes::GateClass;
use marking::counts;
use marking::marks::LevelMarks;

// The verdict on marks for class 1.
#[tactic(auto, using(faults::proofs::ClassLists::list_one), unfolding(crate::specs::Judging::verdict))]
pub fn tally_levels(circuit: &Circuit, marks: &LevelMarks) -> Verdict
    ensures { answered (verdict_values result) ≡ verdict (level_marked marks.now.at_0 marks.now.at_1)
        (class_faults circuit.now.lines (gates_in circuit.now) 1) }
{
    Verdict {
        caught: counts::count_levels(circuit, marks),
        total: counts::total_levels(circuit),
        first: counts::first_levels(circuit, marks),
    }
}

// The verdict on marks for a class of gate faults.
#[tactic(auto, unfolding(crate::specs::Judging::verdict))]
pub fn tally_gates(class: GateClass, circuit: &Circuit, marks: &[u32; MOST_GATES]) -> Verdict
    ensures { answered (verdict_values result) ≡ verdict (gate_marked marks.now)
        (class_faults circuit.now.lines (gates_in circuit.now) (gate_class_number class)) }
{
    Verdict {
        caught: counts::count_gates(class, circuit, marks),
        total: counts::total_gates(class, circuit),
        first: counts::first_gates(class, circuit, marks),
    }
}
