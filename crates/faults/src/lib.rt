// Faults: records of them, the sites where a line can be stuck, and the rules of a fault.
#![tactic(auto)]

pub mod checked;
pub mod classes;
pub mod places;
pub mod records;
pub mod rules;
pub mod sites;

// One fault: its class, its level or gate, its line and its value. The default is a blank record, which is no fault.
#[repr(C)]
#[derive(Clone, Copy, Default)]
pub struct Fault {
    pub class: u32,
    pub place: u32,
    pub line: u32,
    pub value: u32,
}
