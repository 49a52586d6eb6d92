// The rules of a job, read and written: a check function for each table.
ghost use Rattle.std.specs.Prelude.{◌≡◌, not, ◌||◌, ◌*◌, ◌/◌, ◌≤◌, length, eqb, IfOk};
ghost use Rattle.refusals.specs.Tables.{first_of};
ghost use Rattle.refusals.specs.Answers.{fine, found};
ghost use Rattle.circuit.specs.Limits.{most_lines, most_gates, most_vectors};
ghost use Rattle.job.specs.Image.{header_length};
ghost use Rattle.job.specs.Answers.{job_in};
ghost use Rattle.job.specs.Rules.{bad_classes, bad_sizes, header_rows, content_rows, read_rows, write_rows};

use crate::limits::HEADER;
use crate::{Job, header, reading};
use circuit::rules::{bad_counts, bad_lines, check_gates, check_vectors};
use number_bytes::checked::number_at;
use refusals::{Refusal, refuse_when};

// Whether the classes are none or above 15.
#[tactic(auto, unfolding(crate::specs::Rules::bad_classes))]
fn bad_classes(classes: u32) -> bool
    ensures { result ≡ bad_classes classes }
{
    classes == 0 || 15 < classes
}

// Whether an offset or the length is not as the counts say, or the bytes are not that many.
#[tactic(auto, unfolding(crate::specs::Rules::bad_sizes))]
fn bad_sizes(image: &[u8], job: Job) -> bool
    requires job { job ≡ job_in image.now }
    requires long { header_length ≤ length image.now }
    ensures { result ≡ bad_sizes image.now }
{
    let past_header = HEADER as u64;
    let past_gates = past_header + 12 * job.gates as u64;
    let past_vectors = past_gates + 4 * job.vectors as u64;
    number_at::<4>(image, 16) as u64 != past_header
        || number_at::<4>(image, 20) as u64 != past_gates
        || number_at::<4>(image, 24) as u64 != past_vectors
        || image.len() as u64 != past_vectors
}

// Rules 1 to 6, and the job that the header says.
#[tactic(auto, using(refusals::proofs::Tables::turns), unfolding(crate::specs::Rules::header_rows))]
fn check_header(image: &[u8]) -> Result<Job, Refusal>
    ensures rules { found result ≡ first_of (header_rows image.now) fine }
    ensures job { IfOk result (λ job. job ≡ job_in image.now) }
{
    refuse_when(image.len() < HEADER, Refusal::ShortJob)?;
    refuse_when(number_at::<2>(image, 0) != 1, Refusal::Form)?;
    let job = header::job_in(image);
    refuse_when(bad_lines(job.lines), Refusal::Lines)?;
    refuse_when(bad_classes(job.classes), Refusal::Classes)?;
    refuse_when(number_at::<2>(image, 6) != 0, Refusal::Classes)?;
    let gates = job.gates as usize;
    let vectors = job.vectors as usize;
    refuse_when(bad_counts(gates, vectors), Refusal::Counts)?;
    refuse_when(bad_sizes(image, job), Refusal::Sizes)?;
    Ok(job)
}

// Rules 7 and 8: a gate is told before a vector.
#[tactic(auto, using(refusals::proofs::Tables::turns, circuit::proofs::RuleLaws::gate_word, circuit::proofs::RuleLaws::vector_word), unfolding(crate::specs::Rules::content_rows))]
fn check_content(lines: u32, gates: &[u32], vectors: &[u32]) -> Result<(), Refusal>
    requires { (lines ≤ most_lines) × ((length gates.now / 3 ≤ most_gates) × (length vectors.now ≤ most_vectors)) }
    ensures { found result ≡ first_of (content_rows lines gates.now vectors.now) fine }
{
    check_gates(lines, gates)?;
    check_vectors(lines, vectors)
}

// All rules of a job that is read into room for so many words and so many vectors, by lists of words that it is read into first;
// and the job that the header says.
#[tactic(auto, using(crate::proofs::ReadLaws::read_steps), unfolding(crate::specs::Rules::read_rows))]
pub fn check_read(
    image: &[u8],
    gates: &mut [u32],
    vectors: &mut [u32],
    gate_room: usize,
    vector_room: usize,
) -> Result<Job, Refusal>
    requires { (3 * most_gates ≤ length gates.old) × (most_vectors ≤ length vectors.old) }
    ensures rules { found result ≡ first_of (read_rows image.now gate_room vector_room) fine }
    ensures job { IfOk result (λ job. job ≡ job_in image.now) }
{
    let job = check_header(image)?;
    reading::read_lists(image, job, gates, vectors);
    let words = job.gate_words();
    let count = job.vectors as usize;
    check_content(job.lines, &gates[..words], &vectors[..count])?;
    refuse_when(gate_room < words || vector_room < count, Refusal::Room)?;
    Ok(job)
}

// All rules of a job that is written.
#[tactic(auto, using(crate::proofs::WriteLaws::write_steps), unfolding(crate::specs::Rules::write_rows, crate::specs::Image::gate_count))]
pub fn check_write(
    lines: u32,
    classes: u32,
    gates: &[u32],
    vectors: &[u32],
    room: usize,
) -> Result<(), Refusal>
    ensures { found result ≡ first_of (write_rows lines classes gates.now vectors.now room) fine }
{
    refuse_when(bad_lines(lines), Refusal::Lines)?;
    refuse_when(bad_classes(classes), Refusal::Classes)?;
    refuse_when(bad_counts(gates.len() / 3, vectors.len()), Refusal::Counts)?;
    check_content(lines, gates, vectors)?;
    let length = HEADER + 4 * gates.len() + 4 * vectors.len();
    refuse_when(room < length, Refusal::Room)
}
