// The backward set of a circuit, in a room that is known to suffice.
ghost use Rattle.std.specs.Prelude.{◌≡◌, ◌+◌, ◌≤◌, length};
ghost use Rattle.std.specs.Int.Bits.{bit_xor};
ghost use Rattle.basics.specs.Lists.{onto};
ghost use Rattle.circuit.specs.Checked.{gates_in};
ghost use Rattle.circuit.specs.Runs.{backward};
ghost use Rattle.testsets.specs.Sets.{backward_set};

use circuit::checked::{Circuit, step};
use circuit::numbers;
use circuit::numbers::LevelNumber;
use words;

// The vector that gives at a level the inverse of a state.
fn inverse_at(circuit: &Circuit, level: LevelNumber, ones: u32, state: u32) -> u32
    requires { level.0 ≤ length (gates_in circuit.now) }
    ensures { result ≡ backward (gates_in circuit.now) level.0 (bit_xor state ones) }
{
    circuit.run_backward(level, state ^ ones)
}

// One walk up keeps the state of all zeros, and each level's inverse is run back.
pub fn make(circuit: &Circuit, room: &mut [u32]) -> u32
    requires { length (gates_in circuit.now) + 2 ≤ length room.old }
    ensures { (result ≡ length (backward_set circuit.now.lines (gates_in circuit.now)))
        × (room.new ≡ onto (backward_set circuit.now.lines (gates_in circuit.now)) room.old) }
{
    let ones = words::checked::all_ones(circuit.lines);
    let depth = circuit.depth();
    room[0] = 0;
    room[1] = ones;
    let mut state = 0;
    for i in 0..depth {
        let level = numbers::level(i + 1);
        state = step(circuit.gate(numbers::gate_making(level)), state);
        room[i + 2] = inverse_at(circuit, level, ones, state);
    }
    (depth + 2) as u32
}
