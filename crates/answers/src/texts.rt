// What importing a text tells, as a C struct.
ghost use Rattle.std.specs.Prelude.{◌≡◌, [], ◌∷◌};
ghost use Rattle.refusals.specs.Answers.{told};
ghost use Rattle.real_import.specs.Answers.{imported_values};
ghost use Rattle.answers.specs.Fields.{fields};

use real_import::Imported;
use refusals::Refusal;

// A circuit's size.
#[repr(C)]
#[derive(Clone, Copy)]
pub struct Circuit {
    pub number: u32,
    pub place: u32,
    pub lines: u32,
    pub gates: u32,
}

impl From<Result<Imported, Refusal>> for Circuit {
    ghost from_gives = { λ answer circuit. (circuit.number ∷ circuit.place ∷ circuit.lines ∷ circuit.gates ∷ [])
        ≡ fields 2 (told imported_values answer) };

    fn from(answer: Result<Imported, Refusal>) -> Circuit {
        match answer {
            Ok(imported) => Circuit {
                number: 0,
                place: 0,
                lines: imported.lines,
                gates: imported.gates,
            },
            Err(refusal) => Circuit {
                number: refusal.number(),
                place: refusal.place(),
                lines: 0,
                gates: 0,
            },
        }
    }
}
