// A fault that a circuit is known to have.
ghost use Rattle.std.specs.Prelude.{◌≡◌, true};
ghost use Rattle.circuit.specs.Gates.{gates_of};
ghost use Rattle.faults.specs.Rules.{is_fault};
ghost use Rattle.faults.specs.Kinds.{class_number};

use crate::Fault;
use crate::classes::Class;
use crate::rules::check_class;
use circuit::checked::Circuit;

#[derive(Clone, Copy)]
pub struct KnownFault<'a> {
    pub circuit: Circuit<'a>,
    pub fault: Fault,
    pub ghost known: { is_fault circuit.lines (gates_of circuit.gates.now) fault ≡ true },
}

impl<'a> KnownFault<'a> {
    // Its class, which is one of the four.
    #[tactic(auto, using(crate::proofs::RuleLaws::class_known, crate::proofs::RuleLaws::class_there))]
    pub fn class(&self) -> Class
        ensures { self.now.fault.class ≡ class_number result }
    {
        match check_class(self.fault.class) {
            Ok(class) => class,
            Err(_) => unreachable!(),
        }
    }
}
