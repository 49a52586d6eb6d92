// The test for one fault.
#![tactic(auto)]

ghost use Rattle.std.specs.Prelude.{◌≡◌};
ghost use Rattle.refusals.specs.Answers.{told_word};
ghost use Rattle.fault_test.specs.Promises.{test_for_tells};

use faults::Fault;
use refusals::Refusal;

mod checked;
mod rules;

// The test for one fault: a vector that catches it.
#[tactic(auto, using(refusals::proofs::Tables::calls))]
pub fn test_for(lines: u32, gates: &[u32], fault: Fault) -> Result<u32, Refusal>
    ensures { told_word result ≡ test_for_tells lines gates.now fault }
{
    let known = rules::check_test(lines, gates, fault)?;
    Ok(checked::test_for(&known))
}
