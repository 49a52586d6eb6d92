// Several stuck lines together.
#![tactic(auto)]

ghost use Rattle.std.specs.Prelude.{◌≡◌};
ghost use Rattle.refusals.specs.Answers.{told_yes};
ghost use Rattle.multiple_faults.specs.Promises.{catches_multiple_tells};

use refusals::Refusal;

mod checked;
mod limits;
mod rules;

// Whether a vector catches a multiple stuck-at fault, lent as a plain list of entries.
#[tactic(auto, using(refusals::proofs::Tables::calls))]
pub fn catches_multiple(
    lines: u32,
    gates: &[u32],
    vector: u32,
    entries: &[u32],
) -> Result<bool, Refusal>
    ensures { told_yes result ≡ catches_multiple_tells lines gates.now vector entries.now }
{
    let multiple = rules::check_multiple(lines, gates, vector, entries)?;
    Ok(multiple.caught_by(vector))
}
