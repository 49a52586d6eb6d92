// The simulator: faulty runs, and what a vector catches.
#![tactic(auto)]

ghost use Rattle.std.specs.Prelude.{◌≡◌};
ghost use Rattle.refusals.specs.Answers.{told_word, told_yes};
ghost use Rattle.simulator.specs.Promises.{output_tells, catches_tells};

use faults::Fault;
use refusals::Refusal;

pub mod checked;
mod rules;

// The output of the circuit with a fault in it.
#[tactic(auto, using(refusals::proofs::Tables::calls))]
pub fn faulty_run(lines: u32, gates: &[u32], vector: u32, fault: Fault) -> Result<u32, Refusal>
    ensures { told_word result ≡ output_tells lines gates.now vector fault }
{
    let known = rules::check_catch(lines, gates, vector, fault)?;
    Ok(checked::faulty_run(&known, vector))
}

// Whether a vector catches a fault.
#[tactic(auto, using(refusals::proofs::Tables::calls))]
pub fn catches(lines: u32, gates: &[u32], vector: u32, fault: Fault) -> Result<bool, Refusal>
    ensures { told_yes result ≡ catches_tells lines gates.now vector fault }
{
    let known = rules::check_catch(lines, gates, vector, fault)?;
    Ok(checked::catches(&known, vector))
}
