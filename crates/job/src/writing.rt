// A job written into bytes.
ghost use Rattle.std.specs.Prelude.{◌≡◌, ◌≤◌, length};
ghost use Rattle.std.proofs.lemmas.List.Edits.{sets};
ghost use Rattle.basics.specs.Lists.{each, onto};
ghost use Rattle.circuit.specs.Limits.{most_gates, most_vectors};
ghost use Rattle.job.specs.Image.{header_length, header, row_bytes, gate_count, image};

use crate::Job;
use crate::limits::HEADER;
use number_bytes::checked::{put, put_words};

// The header of a job.
#[tactic(auto, unfolding(crate::specs::Image::header, crate::specs::Image::row_bytes, basics::specs::Lists::each, number_bytes::specs::Bytes::bytes_of))]
fn put_header(out: &mut [u8], job: Job)
    requires { (header_length ≤ length out.old) × ((job.gates ≤ most_gates) × (job.vectors ≤ most_vectors)) }
    ensures { out.new ≡ sets out.old 0 (each row_bytes (header job.lines job.classes job.gates job.vectors)) }
{
    let Job {
        lines,
        classes,
        gates,
        vectors,
    } = job;
    put::<2>(out, 0, 1);
    put::<2>(out, 2, lines);
    put::<2>(out, 4, classes);
    put::<2>(out, 6, 0);
    let past_header = HEADER as u32;
    let past_gates = past_header + 12 * gates;
    let past_vectors = past_gates + 4 * vectors;
    let sizes = [gates, vectors, past_header, past_gates, past_vectors];
    put_words(out, 8, &sizes);
}

// The image of a job that breaks no rule, and its length.
#[tactic(auto, using(crate::proofs::ImageLaws::write_steps), unfolding(crate::specs::Image::gate_count))]
pub fn write_image(lines: u32, classes: u32, gates: &[u32], vectors: &[u32], out: &mut [u8]) -> u32
    requires gates_bound { (gate_count gates.now ≤ most_gates) × (length vectors.now ≤ most_vectors) }
    requires vectors_in_bounds { length (image lines classes gates.now vectors.now) ≤ length out.old }
    ensures { (result ≡ length (image lines classes gates.now vectors.now))
        × (out.new ≡ onto (image lines classes gates.now vectors.now) out.old) }
{
    let job = Job {
        lines,
        classes,
        gates: (gates.len() / 3) as u32,
        vectors: vectors.len() as u32,
    };
    put_header(out, job);
    let past_gates = HEADER + 4 * gates.len();
    put_words(out, HEADER, gates);
    put_words(out, past_gates, vectors);
    (past_gates + 4 * vectors.len()) as u32
}
