// The report: from any bytes to the text of their verdict.
#![tactic(auto)]

ghost use Rattle.std.specs.Prelude.{◌≡◌, ◌≤◌, length};
ghost use Rattle.std.proofs.lemmas.List.Edits.{sets};
ghost use Rattle.refusals.specs.Answers.{told_word, number_of, place_of};
ghost use Rattle.text.specs.Writing.{Fits, Put};
ghost use Rattle.circuit.specs.Limits.{most_vectors};
ghost use Rattle.report_text.specs.Report.{report_text, refused_text, job_text};
ghost use Rattle.report_text.specs.Promises.{report_tells, report_leaves};

use crate::classes::put_classes;
use crate::limits::LONGEST_REPORT;
use crate::lines::put_line;
use circuit::checked::Circuit;
use circuit::limits::{GATE_WORDS, MOST_VECTORS};
use refusals::{Refusal, refuse_when};
use text::writing::Writer;

mod classes;
pub mod limits;
mod lines;

// The text of a job's report into the front of some bytes, and how many it takes. A refused call changes nothing; a refused job is a text.
pub fn report(bytes: &[u8], out: &mut [u8]) -> Result<u32, Refusal>
    ensures { (told_word result ≡ report_tells bytes.now out.old)
        × (out.new ≡ report_leaves bytes.now out.old) }
{
    let mut text = [0; LONGEST_REPORT];
    let end = text_of(bytes, &mut text);
    refuse_when(out.len() < end, Refusal::Room)?;
    out[..end].copy_from_slice(&text[..end]);
    Ok(end as u32)
}

// The report's text at the front of an array that has room for the longest, and its length.
fn text_of(bytes: &[u8], room: &mut [u8; LONGEST_REPORT]) -> usize
    ensures { (result ≡ length (report_text bytes.now))
        × (room.new ≡ sets room.old 0 (report_text bytes.now)) }
{
    let mut text = Writer::new(room);
    put_report(&mut text, bytes);
    text.end
}

// The report's text.
fn put_report(text: &mut Writer, bytes: &[u8])
    requires { Fits text.old (report_text bytes.now) }
    ensures { Put text.old text.new (report_text bytes.now) }
{
    let mut gates = [0; GATE_WORDS];
    let mut vectors = [0; MOST_VECTORS];
    match job::read_job(bytes, &mut gates, &mut vectors) {
        Err(refusal) => put_refused(text, refusal),
        Ok(job) => {
            let circuit = Circuit {
                lines: job.lines,
                gates: &gates[..job.gate_words()],
            };
            put_job(
                text,
                &circuit,
                job.classes,
                &vectors[..job.vectors as usize],
            );
        }
    }
}

// The text of a refused job.
fn put_refused(text: &mut Writer, refusal: Refusal)
    requires { Fits text.old (refused_text (number_of refusal) (place_of refusal)) }
    ensures { Put text.old text.new (refused_text (number_of refusal) (place_of refusal)) }
{
    put_line(text, b'E', &[refusal.number(), refusal.place()], false);
}

// The text of a job that breaks no rule.
fn put_job(text: &mut Writer, circuit: &Circuit, classes: u32, vectors: &[u32])
    requires vectors_fit { length vectors.now ≤ most_vectors }
    requires room { Fits text.old (job_text circuit.now.lines classes circuit.now.gates.now vectors.now) }
    ensures { Put text.old text.new (job_text circuit.now.lines classes circuit.now.gates.now vectors.now) }
{
    let numbers = [circuit.lines, circuit.depth() as u32, vectors.len() as u32];
    put_line(text, b'J', &numbers, false);
    put_classes(text, circuit, vectors, classes);
}
