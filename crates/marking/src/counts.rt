// Verdicts on marks: counted from the ones of one word a level or a gate.
ghost use Rattle.std.specs.Prelude.{◌≡◌, ◌-◌, ◌≤◌, ◌<◌, length, get_or};
ghost use Rattle.std.specs.Int.Bits.{bit_or};
ghost use Rattle.basics.specs.Lists.{keep};
ghost use Rattle.words.specs.Word.{bit, lines_on};
ghost use Rattle.circuit.specs.Checked.{gates_in};
ghost use Rattle.circuit.specs.Limits.{most_lines, most_gates};
ghost use Rattle.faults.specs.Classes.{fault_of, stuck_faults, class_faults};
ghost use Rattle.faults.specs.Kinds.{gate_class_number};
ghost use Rattle.marking.specs.Marks.{level_marked, gate_marked};
ghost use Rattle.marking.specs.Firsts.{first_uncaught, told_first};
ghost use Rattle.marking.specs.Tallies.{gate_lines};

use crate::marks::LevelMarks;
use circuit::checked::Circuit;
use circuit::limits::MOST_GATES;
use circuit::numbers;
use circuit::numbers::{GateNumber, LevelNumber};
use faults::Fault;
use faults::classes::GateClass;
use faults::places::{told_gate, told_level};
use faults::sites::{site_count, sites_at};
use words;

// The lines at which a gate has a fault of a class.
#[tactic(auto, using(crate::proofs::FaultLines::lines_two, crate::proofs::FaultLines::lines_three, crate::proofs::FaultLines::lines_four))]
fn gate_lines(class: GateClass, circuit: &Circuit, gate: GateNumber) -> u32
    requires { (0 < gate.0) × (gate.0 ≤ length (gates_in circuit.now)) }
    ensures { result ≡ gate_lines circuit.now.lines (gates_in circuit.now) (gate_class_number class) gate.0 }
{
    match class {
        GateClass::MissingGate => 1,
        GateClass::MissingControl => circuit.own_gate(gate).control_lines(),
        GateClass::ExtraControl => circuit.own_gate(gate).other_lines(),
    }
}

// How many faults of class 1 are marked.
#[tactic(auto, using(crate::proofs::TallyLaws::ones_le))]
pub fn count_levels(circuit: &Circuit, marks: &LevelMarks) -> u32
    ensures { result ≡ length (keep (level_marked marks.now.at_0 marks.now.at_1)
        (stuck_faults circuit.now.lines (gates_in circuit.now))) }
{
    let mut sum = 0;
    for i in 0..circuit.depth() + 1 {
        let here = sites_at(circuit, numbers::level(i));
        sum += words::ones(marks.at_0[i] & here) + words::ones(marks.at_1[i] & here);
    }
    sum
}

// How many faults of class 1 there are.
pub fn total_levels(circuit: &Circuit) -> u32
    ensures { result ≡ length (stuck_faults circuit.now.lines (gates_in circuit.now)) }
{
    2 * site_count(circuit)
}

// The first fault of a level of which some are left: the lowest line, value 0 before 1.
#[tactic(auto, using(words::proofs::Bits::bit_le, words::proofs::AndLaws::lowest_or_lt), unfolding(faults::specs::Classes::fault_of))]
fn first_at_level(level: LevelNumber, left_0: u32, left_1: u32) -> Fault
    requires level_le_most_gates { level.0 ≤ most_gates }
    requires fact { bit_or left_0 left_1 ≡ 0 → ⊥ }
    ensures { result ≡ fault_of 1 level.0 (get_or (lines_on most_lines (bit_or left_0 left_1)) 0 0)
        (1 - bit left_0 (get_or (lines_on most_lines (bit_or left_0 left_1)) 0 0)) }
{
    let line = words::checked::lowest(left_0 | left_1);
    let value = 1 - words::checked::value(left_0, line);
    Fault {
        class: 1,
        place: told_level(level),
        line,
        value,
    }
}

// The first unmarked fault of class 1.
pub fn first_levels(circuit: &Circuit, marks: &LevelMarks) -> Option<Fault>
    ensures { told_first result ≡ first_uncaught (level_marked marks.now.at_0 marks.now.at_1)
        (stuck_faults circuit.now.lines (gates_in circuit.now)) }
{
    for i in 0..circuit.depth() + 1 {
        let level = numbers::level(i);
        let here = sites_at(circuit, level);
        let left_0 = words::lacking(here, marks.at_0[i]);
        let left_1 = words::lacking(here, marks.at_1[i]);
        if left_0 | left_1 != 0 {
            return Some(first_at_level(level, left_0, left_1));
        }
    }
    None
}

// How many faults of a class of gate faults are marked.
#[tactic(auto, using(crate::proofs::TallyLaws::ones_le))]
pub fn count_gates(class: GateClass, circuit: &Circuit, marks: &[u32; MOST_GATES]) -> u32
    ensures { result ≡ length (keep (gate_marked marks.now)
        (class_faults circuit.now.lines (gates_in circuit.now) (gate_class_number class))) }
{
    let mut sum = 0;
    for i in 0..circuit.depth() {
        let gate = numbers::gate_after(numbers::level(i));
        sum += words::ones(marks[i] & gate_lines(class, circuit, gate));
    }
    sum
}

// How many faults of a class of gate faults there are.
#[tactic(auto, using(crate::proofs::TallyLaws::ones_le))]
pub fn total_gates(class: GateClass, circuit: &Circuit) -> u32
    ensures { result ≡ length (class_faults circuit.now.lines (gates_in circuit.now) (gate_class_number class)) }
{
    let mut sum = 0;
    for i in 0..circuit.depth() {
        let gate = numbers::gate_after(numbers::level(i));
        sum += words::ones(gate_lines(class, circuit, gate));
    }
    sum
}

// The first unmarked fault of a class of gate faults.
pub fn first_gates(class: GateClass, circuit: &Circuit, marks: &[u32; MOST_GATES]) -> Option<Fault>
    ensures { told_first result ≡ first_uncaught (gate_marked marks.now)
        (class_faults circuit.now.lines (gates_in circuit.now) (gate_class_number class)) }
{
    for i in 0..circuit.depth() {
        let gate = numbers::gate_after(numbers::level(i));
        let left = words::lacking(gate_lines(class, circuit, gate), marks[i]);
        if left != 0 {
            return Some(Fault {
                class: class.number(),
                place: told_gate(gate),
                line: words::checked::lowest(left),
                value: 0,
            });
        }
    }
    None
}
