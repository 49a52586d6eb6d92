// The answers as C structs. The first two fields of each are a refusal's number and place; where the call answers both are 0, and after a
// refusal all others are.
#![tactic(auto)]

ghost use Rattle.std.specs.Prelude.{◌≡◌, [], ◌∷◌};
ghost use Rattle.refusals.specs.Answers.{told_word, told_yes};
ghost use Rattle.answers.specs.Fields.{fields};

use refusals::Refusal;

pub mod jobs;
pub mod texts;
pub mod verdicts;

// A state.
#[repr(C)]
#[derive(Clone, Copy)]
pub struct Run {
    pub number: u32,
    pub place: u32,
    pub state: u32,
}

// Whether something is caught: 1 or 0.
#[repr(C)]
#[derive(Clone, Copy)]
pub struct Catch {
    pub number: u32,
    pub place: u32,
    pub caught: u32,
}

// A vector.
#[repr(C)]
#[derive(Clone, Copy)]
pub struct Vector {
    pub number: u32,
    pub place: u32,
    pub vector: u32,
}

// How many vectors, bytes or records.
#[repr(C)]
#[derive(Clone, Copy)]
pub struct Count {
    pub number: u32,
    pub place: u32,
    pub count: u32,
}

impl From<Result<u32, Refusal>> for Run {
    ghost from_gives = { λ answer run. (run.number ∷ run.place ∷ run.state ∷ []) ≡ fields 1 (told_word answer) };

    fn from(answer: Result<u32, Refusal>) -> Run {
        match answer {
            Ok(state) => Run {
                number: 0,
                place: 0,
                state,
            },
            Err(refusal) => Run {
                number: refusal.number(),
                place: refusal.place(),
                state: 0,
            },
        }
    }
}

impl From<Result<bool, Refusal>> for Catch {
    ghost from_gives = { λ answer catch. (catch.number ∷ catch.place ∷ catch.caught ∷ []) ≡ fields 1 (told_yes answer) };

    fn from(answer: Result<bool, Refusal>) -> Catch {
        match answer {
            Ok(caught) => Catch {
                number: 0,
                place: 0,
                caught: caught as u32,
            },
            Err(refusal) => Catch {
                number: refusal.number(),
                place: refusal.place(),
                caught: 0,
            },
        }
    }
}

impl From<Result<u32, Refusal>> for Vector {
    ghost from_gives = { λ answer test. (test.number ∷ test.place ∷ test.vector ∷ []) ≡ fields 1 (told_word answer) };

    fn from(answer: Result<u32, Refusal>) -> Vector {
        match answer {
            Ok(vector) => Vector {
                number: 0,
                place: 0,
                vector,
            },
            Err(refusal) => Vector {
                number: refusal.number(),
                place: refusal.place(),
                vector: 0,
            },
        }
    }
}

impl From<Result<u32, Refusal>> for Count {
    ghost from_gives = { λ answer made. (made.number ∷ made.place ∷ made.count ∷ []) ≡ fields 1 (told_word answer) };

    fn from(answer: Result<u32, Refusal>) -> Count {
        match answer {
            Ok(count) => Count {
                number: 0,
                place: 0,
                count,
            },
            Err(refusal) => Count {
                number: refusal.number(),
                place: refusal.place(),
                count: 0,
            },
        }
    }
}
