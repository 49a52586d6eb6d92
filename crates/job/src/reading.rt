// A job read into lists.
ghost use Rattle.std.specs.Prelude.{◌≡◌, ◌*◌, ◌≤◌, length};
ghost use Rattle.basics.specs.Lists.{onto};
ghost use Rattle.job.specs.Image.{past_vectors, gates_in, vectors_in, gate_words, vector_words};
ghost use Rattle.job.specs.Answers.{job_in};

use crate::Job;
use crate::limits::HEADER;
use number_bytes::checked::read_words;

// The gates and the vectors of an image that holds as many as its header says.
#[tactic(auto, using(crate::proofs::ImageLaws::read_steps), unfolding(crate::specs::Image::gate_words, crate::specs::Image::vector_words))]
pub fn read_lists(image: &[u8], job: Job, gates: &mut [u32], vectors: &mut [u32])
    requires job { job ≡ job_in image.now }
    requires image_len { length image.now ≡ past_vectors (gates_in image.now) (vectors_in image.now) }
    requires room { (3 * gates_in image.now ≤ length gates.old) × (vectors_in image.now ≤ length vectors.old) }
    ensures { (gates.new ≡ onto (gate_words image.now) gates.old)
        × (vectors.new ≡ onto (vector_words image.now) vectors.old) }
{
    let words = job.gate_words();
    let count = job.vectors as usize;
    read_words(image, HEADER, &mut gates[..words]);
    read_words(image, HEADER + 4 * words, &mut vectors[..count]);
}
