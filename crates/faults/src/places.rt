// The place of a fault: a level in class 1, a gate in the others. Only the functions here turn it into a number of either kind, and back.
ghost use Rattle.std.specs.Prelude.{◌≡◌, ◌≤◌};
ghost use Rattle.circuit.specs.Limits.{most_gates};

use crate::Fault;
use circuit::numbers;
use circuit::numbers::{GateNumber, LevelNumber};

// The level of a fault whose place is a level.
pub fn level_of(fault: Fault) -> LevelNumber
    ensures { result.0 ≡ fault.place }
{
    let place = fault.place;
    numbers::level(place as usize)
}

// The gate of a fault whose place is a gate.
pub fn gate_of(fault: Fault) -> GateNumber
    ensures { result.0 ≡ fault.place }
{
    let place = fault.place;
    numbers::gate(place as usize)
}

// The place that is told of a level.
pub fn told_level(level: LevelNumber) -> u32
    requires { level.0 ≤ most_gates }
    ensures { result ≡ level.0 }
{
    numbers::gates_before(level) as u32
}

// The place that is told of a gate.
pub fn told_gate(gate: GateNumber) -> u32
    requires { gate.0 ≤ most_gates }
    ensures { result ≡ gate.0 }
{
    numbers::gates_through(gate) as u32
}
