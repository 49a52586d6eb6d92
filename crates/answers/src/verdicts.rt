// Verdicts as C structs.
ghost use Rattle.std.specs.Prelude.{◌≡◌, [], ◌∷◌};
ghost use Rattle.refusals.specs.Answers.{told};
ghost use Rattle.judge.specs.Answers.{verdict_values};
ghost use Rattle.answers.specs.Fields.{fields};

use faults::Fault;
use judge::Verdict;
use refusals::Refusal;

// A verdict: `complete` is 1 or 0, and `first` the first uncaught fault.
#[repr(C)]
#[derive(Clone, Copy)]
pub struct Judgement {
    pub number: u32,
    pub place: u32,
    pub caught: u32,
    pub total: u32,
    pub complete: u32,
    pub first: Fault,
}

impl From<Result<Verdict, Refusal>> for Judgement {
    ghost from_gives = { λ answer judgement. (judgement.number ∷ judgement.place ∷ judgement.caught ∷ judgement.total ∷ judgement.complete
        ∷ judgement.first.class ∷ judgement.first.place ∷ judgement.first.line ∷ judgement.first.value ∷ [])
        ≡ fields 7 (told verdict_values answer) };

    fn from(answer: Result<Verdict, Refusal>) -> Judgement {
        match answer {
            Ok(verdict) => Judgement {
                number: 0,
                place: 0,
                caught: verdict.caught,
                total: verdict.total,
                complete: verdict.first.is_none() as u32,
                first: verdict.first.unwrap_or_default(),
            },
            Err(refusal) => Judgement {
                number: refusal.number(),
                place: refusal.place(),
                caught: 0,
                total: 0,
                complete: 0,
                first: Fault::default(),
            },
        }
    }
}
