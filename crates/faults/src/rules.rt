// The rules of a fault.
ghost use Rattle.std.specs.Prelude.{◌≡◌, true, IfOk};
ghost use Rattle.refusals.specs.Tables.{first_of};
ghost use Rattle.refusals.specs.Answers.{fine, found};
ghost use Rattle.circuit.specs.Gates.{gate_at};
ghost use Rattle.circuit.specs.Controls.{is_control};
ghost use Rattle.circuit.specs.Checked.{gates_in};
ghost use Rattle.faults.specs.Rules.{is_stuck_at, is_gate, is_missing_gate, is_missing_control, is_extra_control, is_fault, fault_rows};
ghost use Rattle.faults.specs.Kinds.{class_number, class_of};
ghost use Rattle.faults.specs.Checked.{IsKnown};

use crate::checked::KnownFault;
use crate::classes::{Class, GateClass};
use crate::sites::sites_at;
use crate::{Fault, places};
use circuit::checked::{Circuit, is_control, is_other};
use circuit::numbers;
use circuit::numbers::GateNumber;
use refusals::{Refusal, refuse_when};
use words;

// Whether a record names a site of the circuit and a value.
#[tactic(auto, using(crate::proofs::SiteLaws::site_above), unfolding(crate::specs::Rules::is_stuck_at))]
pub fn is_stuck_at(circuit: &Circuit, fault: Fault) -> bool
    ensures { result ≡ is_stuck_at circuit.now.lines (gates_in circuit.now) fault }
{
    let level = places::level_of(fault);
    numbers::gates_before(level) <= circuit.depth()
        && fault.line < circuit.lines
        && words::checked::value(sites_at(circuit, level), fault.line) == 1
        && fault.value <= 1
}

// Whether a circuit has a gate of this number: they run from 1 to the last.
#[tactic(auto, unfolding(crate::specs::Rules::is_gate))]
fn is_gate(circuit: &Circuit, gate: GateNumber) -> bool
    ensures { result ≡ is_gate (gates_in circuit.now) gate.0 }
{
    let number = numbers::gates_through(gate);
    1 <= number && number <= circuit.depth()
}

// Whether a record names a gate, and nothing else.
#[tactic(auto, unfolding(crate::specs::Rules::is_missing_gate))]
pub fn is_missing_gate(circuit: &Circuit, fault: Fault) -> bool
    ensures { result ≡ is_missing_gate (gates_in circuit.now) fault }
{
    is_gate(circuit, places::gate_of(fault)) && fault.line == 0 && fault.value == 0
}

// Whether a line is a control of a gate; a line past the circuit's is none.
#[tactic(auto, using(crate::proofs::RuleLaws::gate_in))]
fn controls(circuit: &Circuit, gate: GateNumber, line: u32) -> bool
    requires { is_gate (gates_in circuit.now) gate.0 ≡ true }
    ensures { result ≡ is_control (gate_at (gates_in circuit.now) gate.0) line }
{
    line < circuit.lines && is_control(circuit.gate(gate), line)
}

// Whether a record names a gate and one of its controls.
#[tactic(auto, unfolding(crate::specs::Rules::is_missing_control))]
pub fn is_missing_control(circuit: &Circuit, fault: Fault) -> bool
    ensures { result ≡ is_missing_control (gates_in circuit.now) fault }
{
    let gate = places::gate_of(fault);
    is_gate(circuit, gate) && controls(circuit, gate, fault.line) && fault.value == 0
}

// Whether a record names a gate and a line that is neither a control of it nor its target.
#[tactic(auto, using(crate::proofs::RuleLaws::gate_in), unfolding(crate::specs::Rules::is_extra_control))]
pub fn is_extra_control(circuit: &Circuit, fault: Fault) -> bool
    ensures { result ≡ is_extra_control circuit.now.lines (gates_in circuit.now) fault }
{
    let gate = places::gate_of(fault);
    is_gate(circuit, gate)
        && fault.line < circuit.lines
        && is_other(circuit.gate(gate), fault.line)
        && fault.value == 0
}

// The class of a number: a decision over it, in which the numbers of no class are a range.
pub fn check_class(class: u32) -> Result<Class, Refusal>
    ensures { result ≡ class_of class }
{
    match class {
        1 => Ok(Class::StuckAt),
        2 => Ok(Class::AtGate(GateClass::MissingGate)),
        3 => Ok(Class::AtGate(GateClass::MissingControl)),
        4 => Ok(Class::AtGate(GateClass::ExtraControl)),
        0 | 5..=4294967295 => Err(Refusal::Fault(1)),
    }
}

// Whether a circuit has a fault of the class that its record names. Inlined as its caller is.
#[tactic(auto, using(crate::proofs::RuleLaws::class_one, crate::proofs::RuleLaws::class_two, crate::proofs::RuleLaws::class_three, crate::proofs::RuleLaws::class_four))]
#[inline(always)]
fn has(circuit: &Circuit, class: Class, fault: Fault) -> bool
    requires { fault.class ≡ class_number class }
    ensures { result ≡ is_fault circuit.now.lines (gates_in circuit.now) fault }
{
    match class {
        Class::StuckAt => is_stuck_at(circuit, fault),
        Class::AtGate(GateClass::MissingGate) => is_missing_gate(circuit, fault),
        Class::AtGate(GateClass::MissingControl) => is_missing_control(circuit, fault),
        Class::AtGate(GateClass::ExtraControl) => is_extra_control(circuit, fault),
    }
}

// Rule 9 of a fault that is asked alone. Inlined, so that what it hands on takes no place on the stack.
#[tactic(auto, using(crate::proofs::RuleLaws::class_known, crate::proofs::RuleLaws::class_refused, crate::proofs::RuleLaws::fault_ok), unfolding(crate::specs::Rules::fault_rows))]
#[inline(always)]
pub fn check_fault<'a>(circuit: &Circuit<'a>, fault: Fault) -> Result<KnownFault<'a>, Refusal>
    ensures rules { found result ≡ first_of (fault_rows circuit.now.lines circuit.now.gates.now fault) fine }
    ensures known { IfOk result (IsKnown circuit.now fault) }
{
    let class = check_class(fault.class)?;
    refuse_when(!has(circuit, class, fault), Refusal::Fault(1))?;
    Ok(KnownFault {
        circuit: *circuit,
        fault,
    })
}
