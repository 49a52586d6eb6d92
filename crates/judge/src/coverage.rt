// Coverage so far: a state by value, to which one vector more is added.
ghost use Rattle.std.specs.Prelude.{◌≡◌};
ghost use Rattle.refusals.specs.Tables.Told.{answered};
ghost use Rattle.refusals.specs.Answers.{told};
ghost use Rattle.circuit.specs.Checked.{gates_in};
ghost use Rattle.faults.specs.Classes.{class_faults};
ghost use Rattle.faults.specs.Kinds.{class_number};
ghost use Rattle.judge.specs.Coverages.{empty_coverage, with_vector, is_marked};
ghost use Rattle.judge.specs.Judging.{verdict};
ghost use Rattle.judge.specs.Promises.{count_tells, with_vector_tells, with_vector_gives};
ghost use Rattle.judge.specs.Answers.{verdict_values};
ghost use Rattle.judge.specs.Added.{told_added, handed_back};

use crate::{Verdict, tallies};
use circuit::checked::Circuit;
use circuit::limits::MOST_GATES;
use circuit::rules::{check_circuit, check_vector};
use faults::classes::{Class, GateClass};
use faults::rules::check_class;
use marking::marks::{LevelMarks, mark_gates};
use refusals::Refusal;

// The faults that the vectors so far catch: for each class, place and value a word of the lines at which they catch one.
#[derive(Clone, Copy)]
pub struct Coverage {
    stuck_at: LevelMarks,
    missing_gates: [u32; MOST_GATES],
    missing_controls: [u32; MOST_GATES],
    extra_controls: [u32; MOST_GATES],
}

// A refused vector, and the coverage as it was before.
#[derive(Clone, Copy)]
pub struct Unchanged {
    pub refusal: Refusal,
    pub coverage: Coverage,
}

impl Coverage {
    // Nothing is caught.
    pub fn empty() -> Self
        ensures { result ≡ empty_coverage }
    {
        Coverage {
            stuck_at: LevelMarks::none(),
            missing_gates: [0; MOST_GATES],
            missing_controls: [0; MOST_GATES],
            extra_controls: [0; MOST_GATES],
        }
    }

    // The coverage with one vector added.
    #[tactic(auto, using(crate::proofs::RuleLaws::adding))]
    pub fn with_vector(self, lines: u32, gates: &[u32], vector: u32) -> Result<Coverage, Unchanged>
        ensures { (told_added result ≡ with_vector_tells lines gates.now vector)
            × (handed_back result ≡ with_vector_gives self lines gates.now vector) }
    {
        let mut coverage = self;
        match check_vector(lines, gates, vector) {
            Ok(circuit) => {
                coverage.mark(&circuit, vector);
                Ok(coverage)
            }
            Err(refusal) => Err(Unchanged { refusal, coverage }),
        }
    }

    // The number of faults of a class that are caught, the number in the class, and the first uncaught fault.
    #[tactic(auto, using(crate::proofs::RuleLaws::checks), unfolding(crate::specs::Rules::count_rows))]
    pub fn count(self, lines: u32, gates: &[u32], class: u32) -> Result<Verdict, Refusal>
        ensures { told verdict_values result ≡ count_tells self lines gates.now class }
    {
        let circuit = check_circuit(lines, gates)?;
        let class = check_class(class)?;
        Ok(self.verdict(&circuit, class))
    }

    // Adds the marks of one vector.
    #[tactic(auto, unfolding(crate::specs::Coverages::with_vector))]
    fn mark(&mut self, circuit: &Circuit, vector: u32)
        ensures { self.new ≡ with_vector self.old circuit.now.lines (gates_in circuit.now) vector }
    {
        self.stuck_at.mark(circuit, vector);
        mark_gates(
            GateClass::MissingGate,
            &mut self.missing_gates,
            circuit,
            vector,
        );
        mark_gates(
            GateClass::MissingControl,
            &mut self.missing_controls,
            circuit,
            vector,
        );
        mark_gates(
            GateClass::ExtraControl,
            &mut self.extra_controls,
            circuit,
            vector,
        );
    }

    // The verdict on the marks of a class.
    #[tactic(auto, using(crate::proofs::SetLaws::counting))]
    fn verdict(&self, circuit: &Circuit, class: Class) -> Verdict
        ensures { answered (verdict_values result) ≡ verdict (is_marked self.now)
            (class_faults circuit.now.lines (gates_in circuit.now) (class_number class)) }
    {
        match class {
            Class::StuckAt => tallies::tally_levels(circuit, &self.stuck_at),
            Class::AtGate(GateClass::MissingGate) => {
                tallies::tally_gates(GateClass::MissingGate, circuit, &self.missing_gates)
            }
            Class::AtGate(GateClass::MissingControl) => {
                tallies::tally_gates(GateClass::MissingControl, circuit, &self.missing_controls)
            }
            Class::AtGate(GateClass::ExtraControl) => {
                tallies::tally_gates(GateClass::ExtraControl, circuit, &self.extra_controls)
            }
        }
    }
}
