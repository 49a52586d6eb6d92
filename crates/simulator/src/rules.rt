// The rules of the simulator's calls.
ghost use Rattle.std.specs.Prelude.{◌≡◌, IfOk};
ghost use Rattle.refusals.specs.Tables.{first_of};
ghost use Rattle.refusals.specs.Answers.{fine, found};
ghost use Rattle.faults.specs.Checked.{IsFaultOf};
ghost use Rattle.simulator.specs.Rules.{catch_rows};

use circuit::rules::check_vector;
use faults::Fault;
use faults::checked::KnownFault;
use faults::rules::check_fault;
use refusals::Refusal;

// The rules of a circuit, a vector and a fault.
#[tactic(auto, using(refusals::proofs::Tables::turns), unfolding(crate::specs::Rules::catch_rows))]
pub fn check_catch<'a>(
    lines: u32,
    gates: &'a [u32],
    vector: u32,
    fault: Fault,
) -> Result<KnownFault<'a>, Refusal>
    ensures rules { found result ≡ first_of (catch_rows lines gates.now vector fault) fine }
    ensures known { IfOk result (IsFaultOf lines gates.now fault) }
{
    let circuit = check_vector(lines, gates, vector)?;
    check_fault(&circuit, fault)
}
