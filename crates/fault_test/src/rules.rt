// The rules of the test for one fault.
ghost use Rattle.std.specs.Prelude.{◌≡◌, IfOk};
ghost use Rattle.refusals.specs.Tables.{first_of};
ghost use Rattle.refusals.specs.Answers.{fine, found};
ghost use Rattle.fault_test.specs.Rules.{test_rows};
ghost use Rattle.faults.specs.Checked.{IsFaultOf};

use circuit::rules::check_circuit;
use faults::Fault;
use faults::checked::KnownFault;
use faults::rules::check_fault;
use refusals::Refusal;

// The rules of a circuit and a fault.
#[tactic(auto, using(refusals::proofs::Tables::turns), unfolding(crate::specs::Rules::test_rows))]
pub fn check_test<'a>(lines: u32, gates: &'a [u32], fault: Fault) -> Result<KnownFault<'a>, Refusal>
    ensures rules { found result ≡ first_of (test_rows lines gates.now fault) fine }
    ensures known { IfOk result (IsFaultOf lines gates.now fault) }
{
    let circuit = check_circuit(lines, gates)?;
    check_fault(&circuit, fault)
}
