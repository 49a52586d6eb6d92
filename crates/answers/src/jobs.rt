// What reading a job tells, as a C struct.
ghost use Rattle.std.specs.Prelude.{◌≡◌, [], ◌∷◌};
ghost use Rattle.refusals.specs.Answers.{told};
ghost use Rattle.job.specs.Answers.{job_values};
ghost use Rattle.answers.specs.Fields.{fields};

use refusals::Refusal;

// A job's head.
#[repr(C)]
#[derive(Clone, Copy)]
pub struct Job {
    pub number: u32,
    pub place: u32,
    pub lines: u32,
    pub classes: u32,
    pub gates: u32,
    pub vectors: u32,
}

impl From<Result<job::Job, Refusal>> for Job {
    ghost from_gives = { λ answer read. (read.number ∷ read.place ∷ read.lines ∷ read.classes ∷ read.gates ∷ read.vectors ∷ [])
        ≡ fields 4 (told job_values answer) };

    fn from(answer: Result<job::Job, Refusal>) -> Job {
        match answer {
            Ok(job) => Job {
                number: 0,
                place: 0,
                lines: job.lines,
                classes: job.classes,
                gates: job.gates,
                vectors: job.vectors,
            },
            Err(refusal) => Job {
                number: refusal.number(),
                place: refusal.place(),
                lines: 0,
                classes: 0,
                gates: 0,
                vectors: 0,
            },
        }
    }
}
