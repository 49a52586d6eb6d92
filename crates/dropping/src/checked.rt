// Dropping from a list whose records are known to be faults of a circuit.
ghost use Rattle.std.specs.Prelude.{◌≡◌, length};
ghost use Rattle.circuit.specs.Checked.{gates_in};
ghost use Rattle.dropping.specs.Dropping.{uncaught, dropped};
ghost use Rattle.dropping.specs.Records.{AllFaults};

use crate::entries::Entry;
use circuit::checked::Circuit;
use faults::Fault;
use faults::checked::KnownFault;
use simulator::checked::catches;

// The uncaught to the front in their old order, and the rest blank: how many are left.
pub fn uncaught_to_front<E: Entry>(circuit: &Circuit, vector: u32, list: &mut [E]) -> usize
    requires { AllFaults circuit.now.lines (gates_in circuit.now) (E.records list.old) }
    ensures left { result ≡ length (uncaught (gates_in circuit.now) vector (E.records list.old)) }
    ensures list { E.records list.new ≡ dropped (gates_in circuit.now) vector (E.records list.old) }
    ensures same_length { length list.new ≡ length list.old }
{
    let mut left = 0;
    for i in 0..E::count(list) {
        let fault = E::read(list, i);
        E::write(list, i, Fault::default());
        let known = KnownFault {
            circuit: *circuit,
            fault,
        };
        let stays = !catches(&known, vector);
        if stays {
            E::write(list, left, fault);
            left += 1;
        }
    }
    left
}
