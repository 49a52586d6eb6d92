// Faulty runs and catching, of faults that a sound circuit is known to have.
ghost use Rattle.std.specs.Prelude.{◌≡◌, not, ◌<◌, ◌≤◌, length, drop, eqb};
ghost use Rattle.words.specs.Word.{bit, force};
ghost use Rattle.circuit.specs.Limits.{most_lines};
ghost use Rattle.circuit.specs.Gates.{gate_at};
ghost use Rattle.circuit.specs.Checked.{gates_in};
ghost use Rattle.circuit.specs.Runs.{step, run, forward};
ghost use Rattle.faults.specs.Kinds.{gate_class_number};
ghost use Rattle.simulator.specs.Shown.{state_read, output_from};
ghost use Rattle.simulator.specs.Others.{other_gate, Fits, step_of};
ghost use Rattle.simulator.specs.Faulty.{faulty, caught};

use circuit::checked::{Circuit, step, with_control};
use circuit::numbers::LevelNumber;
use circuit::{Gate, numbers};
use faults::checked::KnownFault;
use faults::classes::{Class, GateClass};
use faults::{Fault, places};
use words;

// From a level on to the output.
fn run_rest(circuit: &Circuit, level: LevelNumber, state: u32) -> u32
    requires { level.0 ≤ length (gates_in circuit.now) }
    ensures { result ≡ run (drop level.0 (gates_in circuit.now)) state }
{
    circuit.run_onward(level, numbers::level(circuit.depth()), state)
}

// The output with a line stuck at a level.
fn run_stuck_at(circuit: &Circuit, vector: u32, fault: Fault) -> u32
    requires { (fault.place ≤ length (gates_in circuit.now)) × (fault.line < most_lines) }
    ensures { result ≡ output_from (gates_in circuit.now) fault
        (force (forward (gates_in circuit.now) fault.place vector) fault.line fault.value) }
{
    let level = places::level_of(fault);
    let state = circuit.run_forward(level, vector);
    run_rest(
        circuit,
        level,
        words::checked::force(state, fault.line, fault.value),
    )
}

// What stands in the place of the gate of a fault: nothing, or the gate with one control less or one more.
fn other_gate(known: &KnownFault, class: GateClass) -> Option<Gate>
    requires { known.now.fault.class ≡ gate_class_number class }
    ensures other { result ≡ other_gate class known.now.fault.line (gate_at (gates_in known.now.circuit) known.now.fault.place) }
    ensures fits { Fits result }
{
    let fault = known.fault;
    let gate = known.circuit.gate(places::gate_of(fault));
    match class {
        GateClass::MissingGate => None,
        GateClass::MissingControl => Some(with_control(gate, fault.line, 0)),
        GateClass::ExtraControl => Some(with_control(gate, fault.line, 1)),
    }
}

// What it makes of a state: nothing leaves it as it is.
fn step_of(other: Option<Gate>, state: u32) -> u32
    requires { Fits other }
    ensures { result ≡ step_of other state }
{
    match other {
        Some(gate) => step(gate, state),
        None => state,
    }
}

// The output with another gate, or none, in the place of a gate.
fn run_changed(known: &KnownFault, other: Option<Gate>, vector: u32) -> u32
    requires le_place { (1 ≤ known.now.fault.place) × (known.now.fault.place ≤ length (gates_in known.now.circuit)) }
    requires fits { Fits other }
    ensures { result ≡ output_from (gates_in known.now.circuit) known.now.fault
        (step_of other (state_read (gates_in known.now.circuit) known.now.fault vector)) }
{
    let gate = places::gate_of(known.fault);
    let state = known.circuit.run_forward(numbers::level_read(gate), vector);
    run_rest(
        &known.circuit,
        numbers::level_made(gate),
        step_of(other, state),
    )
}

// The output of the circuit with a fault in it.
pub fn faulty_run(known: &KnownFault, vector: u32) -> u32
    ensures { result ≡ faulty (gates_in known.now.circuit) known.now.fault vector }
{
    match known.class() {
        Class::StuckAt => run_stuck_at(&known.circuit, vector, known.fault),
        Class::AtGate(class) => run_changed(known, other_gate(known, class), vector),
    }
}

// Whether a line has the other value at a level.
fn catches_stuck_at(circuit: &Circuit, vector: u32, fault: Fault) -> bool
    requires { (fault.place ≤ length (gates_in circuit.now)) × (fault.line < most_lines) }
    ensures { result ≡ not (eqb (bit (forward (gates_in circuit.now) fault.place vector) fault.line) fault.value) }
{
    let state = circuit.run_forward(places::level_of(fault), vector);
    words::checked::value(state, fault.line) != fault.value
}

// Whether another gate, or none, in the place of a gate makes another state of the one that it reads.
fn catches_changed(known: &KnownFault, other: Option<Gate>, vector: u32) -> bool
    requires le_place { (1 ≤ known.now.fault.place) × (known.now.fault.place ≤ length (gates_in known.now.circuit)) }
    requires fits { Fits other }
    ensures { result ≡ not (eqb (step_of other (state_read (gates_in known.now.circuit) known.now.fault vector))
        (step (gate_at (gates_in known.now.circuit) known.now.fault.place) (state_read (gates_in known.now.circuit) known.now.fault vector))) }
{
    let gate = places::gate_of(known.fault);
    let state = known.circuit.run_forward(numbers::level_read(gate), vector);
    let made = step(known.circuit.gate(gate), state);
    step_of(other, state) != made
}

// Whether a vector catches a fault, by what each class changes at one level. Inlined, so that the fault takes no place on the stack.
#[inline(always)]
pub fn catches(known: &KnownFault, vector: u32) -> bool
    ensures { result ≡ caught (gates_in known.now.circuit) known.now.fault vector }
{
    match known.class() {
        Class::StuckAt => catches_stuck_at(&known.circuit, vector, known.fault),
        Class::AtGate(class) => catches_changed(known, other_gate(known, class), vector),
    }
}
