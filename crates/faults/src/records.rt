// Fault records in a plain list, four words a record.
ghost use Rattle.std.specs.Prelude.{◌≡◌, ◌+◌, ◌*◌, ◌≤◌, length, get_or};
ghost use Rattle.faults.specs.Records.{faults_of, no_fault};

use crate::Fault;

// The record after so many others.
pub fn record_at(list: &[u32], ahead: usize) -> Fault
    requires { 4 * ahead + 4 ≤ length list.now }
    ensures { result ≡ get_or (faults_of list.now) ahead no_fault }
{
    let at = 4 * ahead;
    Fault {
        class: list[at],
        place: list[at + 1],
        line: list[at + 2],
        value: list[at + 3],
    }
}
