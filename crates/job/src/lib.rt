// The job image: jobs read out of bytes and written into bytes.
#![tactic(auto)]

ghost use Rattle.std.specs.Prelude.{◌≡◌, ◌*◌};
ghost use Rattle.refusals.specs.Answers.{told, told_word};
ghost use Rattle.job.specs.Answers.{job_values};
ghost use Rattle.job.specs.Promises.{read_tells, read_leaves_gates, read_leaves_vectors, write_tells, write_leaves};

use circuit::limits::{GATE_WORDS, MOST_VECTORS};
use refusals::Refusal;

mod header;
pub mod limits;
mod reading;
mod rules;
pub mod wanted;
mod writing;

// A job's head: its lines, the classes wanted, its numbers of gates and vectors.
#[derive(Clone, Copy)]
pub struct Job {
    pub lines: u32,
    pub classes: u32,
    pub gates: u32,
    pub vectors: u32,
}

impl Job {
    // How many words its gates are, three a gate.
    pub fn gate_words(self) -> usize
        ensures { result ≡ 3 * self.gates }
    {
        3 * self.gates as usize
    }
}

// A job out of bytes, into the fronts of two lists. A refused call changes nothing:
// what is checked is read into lists of its own, and the lent lists are written once all rules have passed.
#[tactic(auto, using(crate::proofs::ReadLaws::job_steps))]
pub fn read_job(bytes: &[u8], gates: &mut [u32], vectors: &mut [u32]) -> Result<Job, Refusal>
    ensures { (told job_values result ≡ read_tells bytes.now gates.old vectors.old)
        × ((gates.new ≡ read_leaves_gates bytes.now gates.old vectors.old)
        × (vectors.new ≡ read_leaves_vectors bytes.now gates.old vectors.old)) }
{
    let mut own_gates = [0; GATE_WORDS];
    let mut own_vectors = [0; MOST_VECTORS];
    let gate_room = gates.len();
    let vector_room = vectors.len();
    let job = rules::check_read(
        bytes,
        &mut own_gates,
        &mut own_vectors,
        gate_room,
        vector_room,
    )?;
    reading::read_lists(bytes, job, gates, vectors);
    Ok(job)
}

// A job into the front of some bytes, and how many it takes. A refused call changes nothing.
#[tactic(auto, using(crate::proofs::WriteLaws::job_steps))]
pub fn write_job(
    lines: u32,
    classes: u32,
    gates: &[u32],
    vectors: &[u32],
    out: &mut [u8],
) -> Result<u32, Refusal>
    ensures { (told_word result ≡ write_tells lines classes gates.now vectors.now out.old)
        × (out.new ≡ write_leaves lines classes gates.now vectors.now out.old) }
{
    rules::check_write(lines, classes, gates, vectors, out.len())?;
    Ok(writing::write_image(lines, classes, gates, vectors, out))
}
