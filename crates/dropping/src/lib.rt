// Dropping: a lent list of fault records loses the faults that a vector catches.
#![tactic(auto)]

ghost use Rattle.std.specs.Prelude.{◌≡◌};
ghost use Rattle.refusals.specs.Answers.{told_word};
ghost use Rattle.dropping.specs.Promises.{drop_tells, drop_leaves, drop_records_tells, drop_records_leaves};

use crate::checked::uncaught_to_front;
use crate::rules::check_drop;
use faults::Fault;
use refusals::Refusal;

pub mod checked;
pub mod entries;
pub mod rules;

// A plain list, four numbers a record: how many are left.
pub fn drop(lines: u32, gates: &[u32], vector: u32, list: &mut [u32]) -> Result<u32, Refusal>
    ensures { (told_word result ≡ drop_tells lines gates.now vector list.old)
        × (list.new ≡ drop_leaves lines gates.now vector list.old) }
{
    let circuit = check_drop(lines, gates, vector, list)?;
    Ok(refusals::in_word(uncaught_to_front::<u32>(&circuit, vector, list)))
}

// A slice of records.
pub fn drop_records(
    lines: u32,
    gates: &[u32],
    vector: u32,
    list: &mut [Fault],
) -> Result<u32, Refusal>
    ensures { (told_word result ≡ drop_records_tells lines gates.now vector list.old)
        × (list.new ≡ drop_records_leaves lines gates.now vector list.old) }
{
    let circuit = check_drop(lines, gates, vector, list)?;
    Ok(refusals::in_word(uncaught_to_front::<Fault>(&circuit, vector, list)))
}
