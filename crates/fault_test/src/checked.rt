// The test for a fault that a circuit is known to have.
ghost use Rattle.std.specs.Prelude.{◌≡◌, ◌≤◌, length};
ghost use Rattle.circuit.specs.Checked.{gates_in};
ghost use Rattle.fault_test.specs.Tests.{test_level, line_at_zero, test_state, test_for};

use circuit::numbers;
use circuit::numbers::LevelNumber;
use faults::checked::KnownFault;
use faults::classes::{Class, GateClass};
use faults::places;
use words;

// Whether the test for a fault wants a line at 0.
#[tactic(auto, unfolding(crate::specs::Tests::line_at_zero))]
fn line_at_zero(known: &KnownFault) -> bool
    ensures { result ≡ line_at_zero known.now.fault }
{
    match known.class() {
        Class::StuckAt => known.fault.value == 1,
        Class::AtGate(GateClass::MissingGate) => false,
        Class::AtGate(GateClass::MissingControl) => true,
        Class::AtGate(GateClass::ExtraControl) => true,
    }
}

// All lines 1, save the one that the test for a fault wants at 0.
#[tactic(auto, unfolding(crate::specs::Tests::test_state))]
fn test_state(known: &KnownFault) -> u32
    ensures { result ≡ test_state known.now.circuit.lines known.now.fault }
{
    let ones = words::checked::all_ones(known.circuit.lines);
    if line_at_zero(known) {
        words::checked::force(ones, known.fault.line, 0)
    } else {
        ones
    }
}

// The level where the fault shows: its own, or the one that its gate reads.
#[tactic(auto, unfolding(crate::specs::Tests::test_level))]
fn test_level(known: &KnownFault) -> LevelNumber
    ensures level { result.0 ≡ test_level known.now.fault }
    ensures level_in_bounds { result.0 ≤ length (gates_in known.now.circuit) }
{
    match known.class() {
        Class::StuckAt => places::level_of(known.fault),
        Class::AtGate(_) => numbers::level_read(places::gate_of(known.fault)),
    }
}

// The test for a fault, worked backward from the level where it shows.
#[tactic(auto, unfolding(crate::specs::Tests::test_for))]
pub fn test_for(known: &KnownFault) -> u32
    ensures { result ≡ test_for known.now.circuit.lines (gates_in known.now.circuit) known.now.fault }
{
    let state = test_state(known);
    known.circuit.run_backward(test_level(known), state)
}
