// Circuits written as texts of the .real form.
#![tactic(auto)]

ghost use Rattle.std.specs.Prelude.{◌≡◌};
ghost use Rattle.refusals.specs.Answers.{told_word};
ghost use Rattle.real_export.specs.Promises.{export_tells, export_leaves};

use refusals::Refusal;

mod rules;
mod writing;

// A circuit as a text, into the front of some bytes; the answer is the number of bytes of the text. A refused call changes nothing.
#[tactic(auto, using(refusals::proofs::Tables::calls, crate::proofs::RuleLaws::texts))]
pub fn export(lines: u32, gates: &[u32], out: &mut [u8]) -> Result<u32, Refusal>
    ensures { (told_word result ≡ export_tells lines gates.now out.old)
        × (out.new ≡ export_leaves lines gates.now out.old) }
{
    let circuit = rules::check_export(lines, gates, out.len())?;
    Ok(writing::put_text(&circuit, out) as u32)
}
