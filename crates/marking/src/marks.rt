// The marks of one vector: for each level or gate the lines at which the circuit has a fault that the vector catches, a word at a time.
ghost use Rattle.std.specs.Prelude.{◌≡◌, ◌≤◌, length};
ghost use Rattle.std.specs.Int.Bits.{bit_and};
ghost use Rattle.basics.specs.Choice.{choice};
ghost use Rattle.words.specs.WordOf.{lacking};
ghost use Rattle.circuit.specs.Checked.{gates_in};
ghost use Rattle.circuit.specs.Runs.{fires};
ghost use Rattle.faults.specs.Kinds.{gate_class_number};
ghost use Rattle.faults.specs.Sites.{sites};
ghost use Rattle.marking.specs.Marks.{caught_at_gate, marked_at, marked, gate_marks};
ghost use Rattle.marking.specs.Levels.{no_levels, with_levels};

use circuit::checked::{Circuit, OwnGate, fires, step};
use circuit::limits::{LEVELS, MOST_GATES};
use circuit::numbers::LevelNumber;
use circuit::{Gate, numbers};
use faults::classes::GateClass;
use faults::sites::sites_at;
use words;

// The marks of class 1, a word a level: the lines that are caught stuck at 0, and those that are caught stuck at 1.
#[derive(Clone, Copy)]
pub struct LevelMarks {
    pub at_0: [u32; LEVELS],
    pub at_1: [u32; LEVELS],
}

impl LevelMarks {
    // Nothing is marked.
    pub fn none() -> Self
        ensures { result ≡ no_levels }
    {
        LevelMarks {
            at_0: [0; LEVELS],
            at_1: [0; LEVELS],
        }
    }

    // Adds the marks of a vector, level by level.
    pub fn mark(&mut self, circuit: &Circuit, vector: u32)
        ensures { self.new ≡ with_levels self.old circuit.now.lines (gates_in circuit.now) vector }
    {
        // By value: behind the reference its fields would be loaded again in each turn, after the writes of the last.
        let circuit = *circuit;
        let mut state = vector;
        for i in 0..circuit.depth() {
            let level = numbers::level(i);
            self.mark_level(&circuit, level, state);
            state = step(circuit.gate(numbers::gate_after(level)), state);
        }
        self.mark_level(&circuit, numbers::level(circuit.depth()), state);
    }

    // One level: a line stuck at 0 is caught where it is 1, and one stuck at 1 where it is 0.
    fn mark_level(&mut self, circuit: &Circuit, level: LevelNumber, state: u32)
        requires { level.0 ≤ length (gates_in circuit.now) }
        ensures { (self.new.at_0 ≡ marked_at self.old.at_0 level.0
            (bit_and state (sites circuit.now.lines (gates_in circuit.now) level.0)))
            × (self.new.at_1 ≡ marked_at self.old.at_1 level.0
            (lacking (sites circuit.now.lines (gates_in circuit.now) level.0) state)) }
    {
        let here = sites_at(circuit, level);
        let i = numbers::gates_before(level);
        self.at_0[i] |= state & here;
        self.at_1[i] |= words::lacking(here, state);
    }
}

// A word where the gate fires, and 0 elsewhere.
fn where_fires(gate: Gate, state: u32, word: u32) -> u32
    ensures { result ≡ choice (fires gate state) word 0 }
{
    if fires(gate, state) { word } else { 0 }
}

// The lines at which a state catches a fault of the gate that reads it: a missing gate stands at line 0 and is caught where the gate fires,
// a missing control where it alone stops the gate, an extra control where its line is 0 and the gate fires.
#[tactic(auto, using(crate::proofs::MarkLaws::fires_word, crate::proofs::MarkLaws::stops_word, crate::proofs::MarkLaws::extra_word))]
fn caught_at_gate(class: GateClass, own: OwnGate, state: u32) -> u32
    ensures { result ≡ caught_at_gate (gate_class_number class) own.lines own.gate state }
{
    match class {
        GateClass::MissingGate => where_fires(own.gate, state, 1),
        GateClass::MissingControl => own.stopping_controls(state),
        GateClass::ExtraControl => {
            where_fires(own.gate, state, words::lacking(own.other_lines(), state))
        }
    }
}

// Adds the marks of a vector for a class of gate faults, gate by gate.
pub fn mark_gates(class: GateClass, marks: &mut [u32; MOST_GATES], circuit: &Circuit, vector: u32)
    ensures { marks.new ≡ marked marks.old
        (gate_marks circuit.now.lines (gates_in circuit.now) (gate_class_number class) vector) }
{
    // As in `LevelMarks::mark`.
    let circuit = *circuit;
    let mut state = vector;
    for i in 0..circuit.depth() {
        let own = circuit.own_gate(numbers::gate_after(numbers::level(i)));
        // First, so that whether the gate fires is worked out once for every class.
        let after = step(own.gate, state);
        marks[i] |= caught_at_gate(class, own, state);
        state = after;
    }
}
