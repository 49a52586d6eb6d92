// Gate numbers run from 1 and level numbers from 0. Only the functions here make them, read them and turn one into the other.
ghost use Rattle.std.specs.Prelude.{◌≡◌, ◌+◌, ◌<◌};
ghost use Rattle.circuit.specs.Limits.{most_gates};

// The number of a gate, from 1.
#[derive(Clone, Copy, PartialEq, Eq)]
pub struct GateNumber(usize);

// The number of a level, from 0: level 0 is the input, level i the state after gate i.
#[derive(Clone, Copy, PartialEq, Eq)]
pub struct LevelNumber(usize);

// The level of a number.
pub fn level(number: usize) -> LevelNumber
    ensures { result.0 ≡ number }
{
    LevelNumber(number)
}

// The gate of a number.
pub fn gate(number: usize) -> GateNumber
    ensures { result.0 ≡ number }
{
    GateNumber(number)
}

// How many gates stand before a level.
pub fn gates_before(level: LevelNumber) -> usize
    ensures { result ≡ level.0 }
{
    level.0
}

// How many gates stand before a gate.
pub fn gates_ahead(gate: GateNumber) -> usize
    requires { 0 < gate.0 }
    ensures { result + 1 ≡ gate.0 }
{
    gate.0 - 1
}

// How many gates stand up to a gate, with itself.
pub fn gates_through(gate: GateNumber) -> usize
    ensures { result ≡ gate.0 }
{
    gate.0
}

// The level that a gate reads.
pub fn level_read(gate: GateNumber) -> LevelNumber
    requires { 0 < gate.0 }
    ensures { result.0 + 1 ≡ gate.0 }
{
    LevelNumber(gate.0 - 1)
}

// The level that a gate makes.
pub fn level_made(gate: GateNumber) -> LevelNumber
    ensures { result.0 ≡ gate.0 }
{
    LevelNumber(gate.0)
}

// The gate that makes a level.
pub fn gate_making(level: LevelNumber) -> GateNumber
    ensures { result.0 ≡ level.0 }
{
    GateNumber(level.0)
}

// The gate that reads a level.
pub fn gate_after(level: LevelNumber) -> GateNumber
    requires { level.0 < most_gates }
    ensures { result.0 ≡ level.0 + 1 }
{
    GateNumber(level.0 + 1)
}

// The gate that a run back from a level takes when it has taken some: the last first.
pub fn gate_back(level: LevelNumber, taken: usize) -> GateNumber
    requires { taken < level.0 }
    ensures { result.0 + taken ≡ level.0 }
{
    GateNumber(level.0 - taken)
}
