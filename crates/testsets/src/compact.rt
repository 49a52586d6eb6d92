// The compact set of a circuit that is known to have few enough lines, in a room that is known to suffice.
ghost use Rattle.std.specs.Prelude.{◌≡◌, ◌≤◌, length};
ghost use Rattle.basics.specs.Lists.{onto};
ghost use Rattle.circuit.specs.Checked.{gates_in};
ghost use Rattle.testsets.specs.Limits.{most_tried_lines};
ghost use Rattle.testsets.specs.Sets.{score, best, bound, compact_set};
ghost use Rattle.testsets.specs.FaultsLeft.{faults_left};

use crate::left::Left;
use circuit::checked::Circuit;
use faults::sites::site_count;

// An input, and how many of the faults that are left it catches.
#[derive(Clone, Copy)]
pub struct Pick {
    vector: u32,
    caught: u32,
}

// The smallest of all inputs that catch the most.
fn best(left: &Left) -> Pick
    requires { left.now.circuit.lines ≤ most_tried_lines }
    ensures { (result.vector ≡ best left.now.circuit.lines (gates_in left.now.circuit) (faults_left left.now))
        × (result.caught ≡ score (gates_in left.now.circuit) (faults_left left.now) result.vector) }
{
    let inputs = 1u32 << left.circuit.lines;
    let mut pick = Pick {
        vector: 0,
        caught: left.score(0),
    };
    for vector in 1..inputs {
        let caught = left.score(vector);
        if pick.caught < caught {
            pick = Pick { vector, caught };
        }
    }
    pick
}

// The best input again and again, until nothing is left.
pub fn make(circuit: &Circuit, room: &mut [u32]) -> u32
    requires few_lines { circuit.now.lines ≤ most_tried_lines }
    requires room_fits { bound circuit.now.lines (gates_in circuit.now) ≤ length room.old }
    ensures { (result ≡ length (compact_set circuit.now.lines (gates_in circuit.now)))
        × (room.new ≡ onto (compact_set circuit.now.lines (gates_in circuit.now)) room.old) }
{
    let mut left = Left::none(circuit);
    left.fill();
    let mut remain = 2 * site_count(circuit);
    let mut count = 0;
    while 0 < remain {
        let pick = best(&left);
        room[count] = pick.vector;
        left.drop_caught(pick.vector);
        remain -= pick.caught;
        count += 1;
    }
    count as u32
}
