// Judging for C: the verdict on a set, straight and by way of a coverage.
ghost use Rattle.std.specs.Prelude.{◌≡◌, [], ◌∷◌};
ghost use Rattle.judge.specs.Promises.{judge_tells};
ghost use Rattle.answers.specs.Fields.{fields};

use answers::verdicts::Judgement;

// The verdict on a set for a class.
#[unsafe(no_mangle)]
pub extern "C" fn nuf_judge(lines: u32, gates: &[u32], vectors: &[u32], class: u32) -> Judgement
    ensures { (result.number ∷ result.place ∷ result.caught ∷ result.total ∷ result.complete
        ∷ result.first.class ∷ result.first.place ∷ result.first.line ∷ result.first.value ∷ []) ≡ fields 7
        (judge_tells lines gates.now vectors.now class) }
{
    judge::judge(lines, gates, vectors, class).into()
}

// The same verdict, by way of a coverage.
#[unsafe(no_mangle)]
pub extern "C" fn nuf_cover(lines: u32, gates: &[u32], vectors: &[u32], class: u32) -> Judgement
    ensures { (result.number ∷ result.place ∷ result.caught ∷ result.total ∷ result.complete
        ∷ result.first.class ∷ result.first.place ∷ result.first.line ∷ result.first.value ∷ []) ≡ fields 7
        (judge_tells lines gates.now vectors.now class) }
{
    judge::covering::cover(lines, gates, vectors, class).into()
}
