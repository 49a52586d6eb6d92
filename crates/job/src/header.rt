// What the header of a job says.
ghost use Rattle.std.specs.Prelude.{◌≡◌, ◌≤◌, length};
ghost use Rattle.job.specs.Image.{header_length, lines_in, classes_in, gates_in, vectors_in};
ghost use Rattle.job.specs.Answers.{job_in};

use crate::Job;
use number_bytes::checked::number_at;

// Its job, whether it breaks rules or not.
#[tactic(auto, unfolding(crate::specs::Image::lines_in, crate::specs::Image::classes_in, crate::specs::Image::gates_in, crate::specs::Image::vectors_in))]
pub fn job_in(image: &[u8]) -> Job
    requires { header_length ≤ length image.now }
    ensures { result ≡ job_in image.now }
{
    Job {
        lines: number_at::<2>(image, 2),
        classes: number_at::<2>(image, 4),
        gates: number_at::<4>(image, 8),
        vectors: number_at::<4>(image, 12),
    }
}
