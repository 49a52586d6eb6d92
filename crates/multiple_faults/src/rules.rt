// The rules of a multiple fault: a check function for each table.
ghost use Rattle.std.specs.Prelude.{◌≡◌, [], ◌∷◌, not, ◌||◌, ◌+◌, ◌*◌, ◌≤◌, length, get_or, drop, eqb, ltb, IfOk};
ghost use Rattle.basics.specs.Lists.{some};
ghost use Rattle.refusals.specs.Tables.{first_of};
ghost use Rattle.refusals.specs.Tables.Row.{refuse◌at◌when◌};
ghost use Rattle.refusals.specs.Places.{in_word};
ghost use Rattle.refusals.specs.Answers.{fine, found};
ghost use Rattle.circuit.specs.Checked.{gates_in};
ghost use Rattle.faults.specs.Records.{no_fault, faults_of};
ghost use Rattle.multiple_faults.specs.Limits.{most_entries};
ghost use Rattle.multiple_faults.specs.Multiple.{bad_entry, same_site, site_twice};
ghost use Rattle.multiple_faults.specs.Rules.{first_bad_entry, entries_rows, multiple_rows};
ghost use Rattle.multiple_faults.specs.Checked.{HasEntries};

use crate::checked::Multiple;
use crate::limits::MOST_ENTRIES;
use circuit::checked::Circuit;
use circuit::rules::check_vector;
use faults::classes::Class;
use faults::rules::is_stuck_at;
use faults::{Fault, records};
use refusals::{Refusal, in_word, refuse_when};

// Whether a record is no entry of a multiple fault.
#[tactic(auto, unfolding(crate::specs::Multiple::bad_entry))]
fn bad_entry(circuit: &Circuit, fault: Fault) -> bool
    ensures { result ≡ bad_entry circuit.now.lines (gates_in circuit.now) fault }
{
    !(fault.class == Class::StuckAt.number() && is_stuck_at(circuit, fault))
}

// Rule 9: the first record that is no entry; words left over are one more.
fn check_records(circuit: &Circuit, entries: &[u32]) -> Result<(), Refusal>
    ensures { found result ≡ first_of
        (refuse 9 at in_word (first_bad_entry circuit.now.lines circuit.now.gates.now entries.now)
        when not (eqb (first_bad_entry circuit.now.lines circuit.now.gates.now entries.now) 0) ∷ []) fine }
{
    let whole = entries.len() / 4;
    for i in 0..whole {
        if bad_entry(circuit, records::record_at(entries, i)) {
            return Err(Refusal::Fault(in_word(i + 1)));
        }
    }
    refuse_when(entries.len() % 4 != 0, Refusal::Fault(in_word(whole + 1)))
}

// Whether two records name one site.
#[tactic(auto, unfolding(crate::specs::Multiple::same_site))]
fn same_site(a: Fault, b: Fault) -> bool
    ensures { result ≡ same_site a b }
{
    a.place == b.place && a.line == b.line
}

// Whether a later record names the site of this one.
fn named_again(entries: &[u32], ahead: usize) -> bool
    requires { 4 * ahead + 4 ≤ length entries.now }
    ensures { result ≡ some (same_site (get_or (faults_of entries.now) ahead no_fault))
        (drop (ahead + 1) (faults_of entries.now)) }
{
    let first = records::record_at(entries, ahead);
    (ahead + 1..entries.len() / 4).any(|i| same_site(first, records::record_at(entries, i)))
}

// Whether a site is named twice.
fn site_twice(entries: &[u32]) -> bool
    ensures { result ≡ site_twice (faults_of entries.now) }
{
    (0..entries.len() / 4).any(|i| named_again(entries, i))
}

// Whether there is no entry, or more than there may be, or a site named twice.
#[tactic(auto, using(faults::proofs::RecordLaws::records_count))]
fn bad_list(entries: &[u32]) -> bool
    ensures { result ≡ (eqb (length (faults_of entries.now)) 0
        || (ltb most_entries (length (faults_of entries.now)) || site_twice (faults_of entries.now))) }
{
    let number = entries.len() / 4;
    number == 0 || MOST_ENTRIES < number || site_twice(entries)
}

// Rules 9 and 13 of the entries of a multiple fault.
#[tactic(auto, using(refusals::proofs::Tables::turns, crate::proofs::RuleLaws::records_good), unfolding(crate::specs::Rules::entries_rows))]
fn check_entries<'a>(circuit: &Circuit<'a>, entries: &'a [u32]) -> Result<Multiple<'a>, Refusal>
    ensures rules { found result ≡ first_of (entries_rows circuit.now.lines circuit.now.gates.now entries.now) fine }
    ensures multiple { IfOk result (HasEntries circuit.now.lines circuit.now.gates.now entries.now) }
{
    check_records(circuit, entries)?;
    refuse_when(bad_list(entries), Refusal::Entries)?;
    Ok(Multiple {
        circuit: *circuit,
        entries,
    })
}

// The rules of a circuit, a vector and a multiple fault.
#[tactic(auto, using(refusals::proofs::Tables::turns), unfolding(crate::specs::Rules::multiple_rows))]
pub fn check_multiple<'a>(
    lines: u32,
    gates: &'a [u32],
    vector: u32,
    entries: &'a [u32],
) -> Result<Multiple<'a>, Refusal>
    ensures rules { found result ≡ first_of (multiple_rows lines gates.now vector entries.now) fine }
    ensures multiple { IfOk result (HasEntries lines gates.now entries.now) }
{
    let circuit = check_vector(lines, gates, vector)?;
    check_entries(&circuit, entries)
}
