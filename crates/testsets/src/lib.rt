// Test sets that catch every stuck-at fault: the backward set, and the compact set.
#![tactic(auto)]

ghost use Rattle.std.specs.Prelude.{◌≡◌};
ghost use Rattle.refusals.specs.Answers.{told_word};
ghost use Rattle.testsets.specs.Promises.{backward_set_tells, backward_set_leaves, compact_set_tells, compact_set_leaves};

use refusals::Refusal;

mod backward;
mod compact;
mod left;
mod limits;
mod rules;

// All zeros, all ones, and for each level the vector that gives there the inverse of what all zeros give; how many vectors stand in the room.
#[tactic(auto, using(refusals::proofs::Tables::calls, crate::proofs::RuleLaws::backward_ok))]
pub fn backward_set(lines: u32, gates: &[u32], room: &mut [u32]) -> Result<u32, Refusal>
    ensures { (told_word result ≡ backward_set_tells lines gates.now room.old)
        × (room.new ≡ backward_set_leaves lines gates.now room.old) }
{
    let circuit = rules::check_backward(lines, gates, room.len())?;
    Ok(backward::make(&circuit, room))
}

// The input that catches the most, then the one that catches the most of what is left, and so on; how many vectors stand in the room.
#[tactic(auto, using(refusals::proofs::Tables::calls, crate::proofs::RuleLaws::compact_ok))]
pub fn compact_set(lines: u32, gates: &[u32], room: &mut [u32]) -> Result<u32, Refusal>
    ensures { (told_word result ≡ compact_set_tells lines gates.now room.old)
        × (room.new ≡ compact_set_leaves lines gates.now room.old) }
{
    let circuit = rules::check_compact(lines, gates, room.len())?;
    Ok(compact::make(&circuit, room))
}
