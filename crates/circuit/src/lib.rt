// Circuits: gates in a flat list of words, and runs of them in both directions to a named level.
#![tactic(auto)]

ghost use Rattle.std.specs.Prelude.{◌≡◌};
ghost use Rattle.refusals.specs.Answers.{told_word};
ghost use Rattle.circuit.specs.Promises.{forward_tells, backward_tells};

use refusals::Refusal;

pub mod checked;
pub mod limits;
pub mod numbers;
pub mod rules;

// One gate: a mask of control lines, a spare word, and the target line.
#[derive(Clone, Copy)]
pub struct Gate {
    pub controls: u32,
    pub spare: u32,
    pub target: u32,
}

// From the input to a level.
#[tactic(auto, using(refusals::proofs::Tables::calls, crate::proofs::RuleLaws::run_ok))]
pub fn forward(lines: u32, gates: &[u32], level: u32, state: u32) -> Result<u32, Refusal>
    ensures { told_word result ≡ forward_tells lines gates.now level state }
{
    let circuit = rules::check_run(lines, gates, level, state)?;
    Ok(circuit.run_forward(numbers::level(level as usize), state))
}

// From a level to the input that leads there.
#[tactic(auto, using(refusals::proofs::Tables::calls, crate::proofs::RuleLaws::run_ok))]
pub fn backward(lines: u32, gates: &[u32], level: u32, state: u32) -> Result<u32, Refusal>
    ensures { told_word result ≡ backward_tells lines gates.now level state }
{
    let circuit = rules::check_run(lines, gates, level, state)?;
    Ok(circuit.run_backward(numbers::level(level as usize), state))
}
