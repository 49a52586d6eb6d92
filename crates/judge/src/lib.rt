// Judging: coverage so far, and the verdict on a set of vectors for a class.
#![tactic(auto)]

ghost use Rattle.std.specs.Prelude.{◌≡◌};
ghost use Rattle.refusals.specs.Answers.{told};
ghost use Rattle.judge.specs.Promises.{judge_tells};
ghost use Rattle.judge.specs.Answers.{verdict_values};

use circuit::rules::check_set;
use faults::Fault;
use faults::rules::check_class;
use refusals::Refusal;

pub mod checked;
pub mod coverage;
pub mod covering;
mod tallies;

// The verdict on a set for a class: how many of its faults are caught, how many it has, and the first that is not caught.
#[derive(Clone, Copy)]
pub struct Verdict {
    pub caught: u32,
    pub total: u32,
    pub first: Option<Fault>,
}

// Judges a set for a class: which of its faults some vector catches.
#[tactic(auto, using(crate::proofs::RuleLaws::checks), unfolding(crate::specs::Rules::judge_rows))]
pub fn judge(lines: u32, gates: &[u32], vectors: &[u32], class: u32) -> Result<Verdict, Refusal>
    ensures { told verdict_values result ≡ judge_tells lines gates.now vectors.now class }
{
    let circuit = check_set(lines, gates, vectors)?;
    let class = check_class(class)?;
    Ok(checked::judge_class(&circuit, vectors, class))
}
