// Refusals: the rules of the table (docs/SCOPE.md, section 6), each with the place that it tells.
#![tactic(auto)]

ghost use Rattle.std.specs.Prelude.{◌≡◌, [], ◌∷◌};
ghost use Rattle.refusals.specs.Tables.{first_of};
ghost use Rattle.refusals.specs.Tables.Row.{refuse◌at◌when◌};
ghost use Rattle.refusals.specs.Places.{in_word};
ghost use Rattle.refusals.specs.Answers.{number_of, place_of, fine, found};

use std::error::Error;
use std::fmt;

// The rule that is broken. A place is that of a gate, a vector, a record or a line of a text.
#[derive(Clone, Copy, Debug, PartialEq, Eq)]
pub enum Refusal {
    ShortJob,
    Form,
    Lines,
    Classes,
    Counts,
    Sizes,
    Gate(u32),
    Vector(u32),
    Fault(u32),
    Room,
    ManyLines,
    Level,
    Entries,
    Text(u32),
    OtherGate(u32),
}

impl Refusal {
    // Its number in the table.
    pub fn number(self) -> u32
        ensures { result ≡ number_of self }
    {
        match self {
            Refusal::ShortJob => 1,
            Refusal::Form => 2,
            Refusal::Lines => 3,
            Refusal::Classes => 4,
            Refusal::Counts => 5,
            Refusal::Sizes => 6,
            Refusal::Gate(_) => 7,
            Refusal::Vector(_) => 8,
            Refusal::Fault(_) => 9,
            Refusal::Room => 10,
            Refusal::ManyLines => 11,
            Refusal::Level => 12,
            Refusal::Entries => 13,
            Refusal::Text(_) => 14,
            Refusal::OtherGate(_) => 15,
        }
    }

    // The place that is told with it; 0 where the rule has none.
    pub fn place(self) -> u32
        ensures { result ≡ place_of self }
    {
        match self {
            Refusal::Gate(place)
            | Refusal::Vector(place)
            | Refusal::Fault(place)
            | Refusal::Text(place)
            | Refusal::OtherGate(place) => place,
            _ => 0,
        }
    }
}

impl fmt::Display for Refusal {
    fn fmt<W: fmt::Write>(&self, f: &mut fmt::Formatter<W>) -> fmt::Result {
        write!(f, "refused {} at {}", self.number(), self.place())
    }
}

impl Error for Refusal {}

// One rule.
pub fn refuse_when(broken: bool, refusal: Refusal) -> Result<(), Refusal>
    ensures { found result ≡ first_of (refuse number_of refusal at place_of refusal when broken ∷ []) fine }
{
    if broken { Err(refusal) } else { Ok(()) }
}

// A place in a list or a number of entries, as a word can tell it: what no word holds is told as the largest.
#[tactic(auto, unfolding(crate::specs::Places::in_word))]
pub fn in_word(number: usize) -> u32
    ensures { result ≡ in_word number }
{
    number.min(u32::MAX as usize) as u32
}
