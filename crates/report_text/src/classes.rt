// The lines of the classes wanted.
ghost use Rattle.std.specs.Prelude.{◌≡◌};
ghost use Rattle.text.specs.Writing.{Fits, Put};
ghost use Rattle.circuit.specs.Checked.{gates_in};
ghost use Rattle.faults.specs.Kinds.{class_number};
ghost use Rattle.report_text.specs.Report.{letter_of, class_lines};
ghost use Rattle.report_text.specs.Parts.{numbers_shown, verdict_text, wanted_text};

use crate::lines::put_line;
use circuit::checked::Circuit;
use faults::classes::{Class, GateClass};
use job::wanted::is_wanted;
use judge::Verdict;
use judge::checked::judge_class;
use text::writing::Writer;

// The letter of a class.
#[tactic(auto, unfolding(crate::specs::Report::letter_of))]
fn letter_of(class: Class) -> u8
    ensures { result ≡ letter_of (class_number class) }
{
    match class {
        Class::StuckAt => b'S',
        Class::AtGate(GateClass::MissingGate) => b'M',
        Class::AtGate(GateClass::MissingControl) => b'C',
        Class::AtGate(GateClass::ExtraControl) => b'X',
    }
}

// How many numbers the line of a class with an uncaught fault has.
#[tactic(auto, unfolding(crate::specs::Parts::numbers_shown))]
fn numbers_shown(class: Class) -> usize
    ensures { result ≡ numbers_shown (class_number class) }
{
    match class {
        Class::StuckAt => 5,
        Class::AtGate(GateClass::MissingGate) => 3,
        Class::AtGate(GateClass::MissingControl) => 4,
        Class::AtGate(GateClass::ExtraControl) => 4,
    }
}

// The line of a verdict: ok where the class is complete, and else the first uncaught fault.
fn put_verdict(text: &mut Writer, class: Class, verdict: Verdict)
    requires { Fits text.old (verdict_text (class_number class) verdict) }
    ensures { Put text.old text.new (verdict_text (class_number class) verdict) }
{
    let letter = letter_of(class);
    match verdict.first {
        None => put_line(text, letter, &[verdict.caught, verdict.total], true),
        Some(fault) => {
            let numbers = [
                verdict.caught,
                verdict.total,
                fault.place,
                fault.line,
                fault.value,
            ];
            put_line(text, letter, &numbers[..numbers_shown(class)], false);
        }
    }
}

// The line of a class if it is wanted.
fn put_wanted(text: &mut Writer, circuit: &Circuit, vectors: &[u32], classes: u32, class: Class)
    requires { Fits text.old (wanted_text circuit.now.lines (gates_in circuit.now) vectors.now classes (class_number class)) }
    ensures { Put text.old text.new (wanted_text circuit.now.lines (gates_in circuit.now) vectors.now classes (class_number class)) }
{
    if is_wanted(classes, class.number()) {
        put_verdict(text, class, judge_class(circuit, vectors, class));
    }
}

// The lines of the classes wanted, in code order.
pub fn put_classes(text: &mut Writer, circuit: &Circuit, vectors: &[u32], classes: u32)
    requires { Fits text.old (class_lines circuit.now.lines classes circuit.now.gates.now vectors.now) }
    ensures { Put text.old text.new (class_lines circuit.now.lines classes circuit.now.gates.now vectors.now) }
{
    for class in Class::ALL {
        put_wanted(text, circuit, vectors, classes, class);
    }
}
