// The classes of faults, which a record and a caller tell by their numbers.
ghost use Rattle.std.specs.Prelude.{◌≡◌};
ghost use Rattle.faults.specs.Kinds.{gate_class_number, class_number};

// The classes whose faults stand at a gate.
#[derive(Clone, Copy, PartialEq, Eq)]
pub enum GateClass {
    MissingGate,
    MissingControl,
    ExtraControl,
}

// All classes: a line stuck at a level, and those at a gate.
#[derive(Clone, Copy, PartialEq, Eq)]
pub enum Class {
    StuckAt,
    AtGate(GateClass),
}

impl GateClass {
    // Its number.
    pub fn number(self) -> u32
        ensures { result ≡ gate_class_number self }
    {
        match self {
            GateClass::MissingGate => 2,
            GateClass::MissingControl => 3,
            GateClass::ExtraControl => 4,
        }
    }
}

impl Class {
    // Every class, in the order of their numbers.
    pub const ALL: [Class; 4] = [
        Class::StuckAt,
        Class::AtGate(GateClass::MissingGate),
        Class::AtGate(GateClass::MissingControl),
        Class::AtGate(GateClass::ExtraControl),
    ];

    // Its number.
    pub fn number(self) -> u32
        ensures { result ≡ class_number self }
    {
        match self {
            Class::StuckAt => 1,
            Class::AtGate(class) => class.number(),
        }
    }
}
