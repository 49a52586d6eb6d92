// The C interface: each call of the library under a C name, its answer a struct by value. `include/nufsadeem.h` declares it.
// An answer's fields, in their order, are the `fields` of what the wrapped call tells.
// These are for Rattle code and its theorems: a library exports nothing, so `nufsadeem_c` exports each of them once more.
#![tactic(auto)]

ghost use Rattle.std.specs.Prelude.{◌≡◌, [], ◌∷◌};
ghost use Rattle.circuit.specs.Promises.{forward_tells, backward_tells};
ghost use Rattle.simulator.specs.Promises.{catches_tells};
ghost use Rattle.multiple_faults.specs.Promises.{catches_multiple_tells};
ghost use Rattle.fault_test.specs.Promises.{test_for_tells};
ghost use Rattle.dropping.specs.Promises.{drop_tells, drop_leaves, drop_records_tells, drop_records_leaves};
ghost use Rattle.testsets.specs.Promises.{backward_set_tells, backward_set_leaves, compact_set_tells, compact_set_leaves};
ghost use Rattle.answers.specs.Fields.{fields};

use answers::{Catch, Count, Run, Vector};
use faults::Fault;

pub mod jobs;
pub mod judging;
pub mod texts;

// From the input to a level.
#[unsafe(no_mangle)]
pub extern "C" fn nuf_forward(lines: u32, gates: &[u32], level: u32, state: u32) -> Run
    ensures { (result.number ∷ result.place ∷ result.state ∷ []) ≡ fields 1 (forward_tells lines gates.now level state) }
{
    circuit::forward(lines, gates, level, state).into()
}

// From a level to the input that leads there.
#[unsafe(no_mangle)]
pub extern "C" fn nuf_backward(lines: u32, gates: &[u32], level: u32, state: u32) -> Run
    ensures { (result.number ∷ result.place ∷ result.state ∷ []) ≡ fields 1 (backward_tells lines gates.now level state) }
{
    circuit::backward(lines, gates, level, state).into()
}

// Whether a vector catches a fault.
#[unsafe(no_mangle)]
pub extern "C" fn nuf_catches(lines: u32, gates: &[u32], vector: u32, fault: Fault) -> Catch
    ensures { (result.number ∷ result.place ∷ result.caught ∷ []) ≡ fields 1 (catches_tells lines gates.now vector fault) }
{
    simulator::catches(lines, gates, vector, fault).into()
}

// Whether a vector catches a multiple stuck-at fault, lent as a plain list of entries.
#[unsafe(no_mangle)]
pub extern "C" fn nuf_catches_multiple(
    lines: u32,
    gates: &[u32],
    vector: u32,
    entries: &[u32],
) -> Catch
    ensures { (result.number ∷ result.place ∷ result.caught ∷ []) ≡ fields 1
        (catches_multiple_tells lines gates.now vector entries.now) }
{
    multiple_faults::catches_multiple(lines, gates, vector, entries).into()
}

// The test for one fault.
#[unsafe(no_mangle)]
pub extern "C" fn nuf_test_for(lines: u32, gates: &[u32], fault: Fault) -> Vector
    ensures { (result.number ∷ result.place ∷ result.vector ∷ []) ≡ fields 1 (test_for_tells lines gates.now fault) }
{
    fault_test::test_for(lines, gates, fault).into()
}

// The backward set, into the front of a room.
#[unsafe(no_mangle)]
pub extern "C" fn nuf_backward_set(lines: u32, gates: &[u32], room: &mut [u32]) -> Count
    ensures { ((result.number ∷ result.place ∷ result.count ∷ []) ≡ fields 1 (backward_set_tells lines gates.now room.old))
        × (room.new ≡ backward_set_leaves lines gates.now room.old) }
{
    testsets::backward_set(lines, gates, room).into()
}

// The compact set, into the front of a room.
#[unsafe(no_mangle)]
pub extern "C" fn nuf_compact_set(lines: u32, gates: &[u32], room: &mut [u32]) -> Count
    ensures { ((result.number ∷ result.place ∷ result.count ∷ []) ≡ fields 1 (compact_set_tells lines gates.now room.old))
        × (room.new ≡ compact_set_leaves lines gates.now room.old) }
{
    testsets::compact_set(lines, gates, room).into()
}

// A plain list loses the faults that a vector catches.
#[unsafe(no_mangle)]
pub extern "C" fn nuf_drop(lines: u32, gates: &[u32], vector: u32, list: &mut [u32]) -> Count
    ensures { ((result.number ∷ result.place ∷ result.count ∷ []) ≡ fields 1 (drop_tells lines gates.now vector list.old))
        × (list.new ≡ drop_leaves lines gates.now vector list.old) }
{
    dropping::drop(lines, gates, vector, list).into()
}

// The same of a list of records.
#[unsafe(no_mangle)]
pub extern "C" fn nuf_drop_records(
    lines: u32,
    gates: &[u32],
    vector: u32,
    list: &mut [Fault],
) -> Count
    ensures { ((result.number ∷ result.place ∷ result.count ∷ []) ≡ fields 1 (drop_records_tells lines gates.now vector list.old))
        × (list.new ≡ drop_records_leaves lines gates.now vector list.old) }
{
    dropping::drop_records(lines, gates, vector, list).into()
}
