// Texts of the .real form: each is read, what was read is written and read again, and each says what was asked and what came.
#![tactic(auto)]

use real_import::Imported;
use refusals::Refusal;
use std::io;

fn say_numbers(rt: &impl Print, numbers: &[u32]) -> io::Result<()> {
    for number in numbers {
        print!(rt; " {number}")?;
    }
    Ok(())
}

fn say_refused(rt: &impl Print, refusal: Refusal) -> io::Result<()> {
    print!(rt; "refused {} {}", refusal.number(), refusal.place())
}

fn say_imported(rt: &impl Print, imported: Result<Imported, Refusal>) -> io::Result<()> {
    match imported {
        Ok(circuit) => print!(rt; "read {} {}", circuit.lines, circuit.gates),
        Err(refusal) => say_refused(rt, refusal),
    }
}

// What is told of a text, and the whole room, which held nines before the call.
fn say_read(rt: &impl Print, imported: Result<Imported, Refusal>, room: &[u32]) -> io::Result<()> {
    say_imported(rt, imported)?;
    print!(rt; ", room")?;
    say_numbers(rt, room)
}

// The text that was written, and what it is read as, into room for two gates.
fn show_again(rt: &impl Print, text: &[u8]) -> io::Result<()> {
    let mut room = [9; 6];
    let imported = real_import::import(text, &mut room);
    rt.write_all(text)?;
    print!(rt; "again ")?;
    say_read(rt, imported, &room)
}

fn show_written(rt: &impl Print, lines: u32, gates: &[u32]) -> io::Result<()> {
    let mut text = [9u8; 186];
    println!(rt; ", written")?;
    match real_export::export(lines, gates, &mut text) {
        Ok(count) => match text.get(..count as usize) {
            Some(written) => show_again(rt, written),
            None => Ok(()),
        },
        Err(refusal) => say_refused(rt, refusal),
    }
}

// What is asked, what a text is read as, into room for two gates and two words more, and what that is written as.
fn show(rt: &impl Print, asked: &str, text: &[u8]) -> io::Result<()> {
    let mut room = [9; 8];
    let imported = real_import::import(text, &mut room);
    print!(rt; "{asked}: ")?;
    say_read(rt, imported, &room)?;
    if let Ok(circuit) = imported {
        if let Some(gates) = room.get(..3 * circuit.gates as usize) {
            show_written(rt, circuit.lines, gates)?;
        }
    }
    println!(rt)
}

fn show_each(rt: &impl Print, samples: &[(&str, &[u8])]) -> io::Result<()> {
    for (asked, text) in samples {
        show(rt, asked, text)?;
    }
    Ok(())
}

// Texts of the form; that of 32 names is as long as there is room for.
const FORMS: [(&str, &[u8]); 8] = [
    (
        "the sample circuit",
        b".version 1.0\n.numvars 3\n.variables x0 x1 x2\n.begin\nt3 x0 x1 x2\nt2 x0 x1\n.end\n",
    ),
    (
        "comments, blank lines, blanks, tabs, CR LF, no last LF",
        b"# block 7\r\n\r\n\t.version 2.0 \r\n.numvars\t2\n \t\r\n\
          .variables a  b\r\n #\xff\r\r\n.begin \n t2 a b\r\n\n.end\n# end",
    ),
    (
        "every optional part",
        b".version\n.numvars 2\n.variables a b\n.garbage 1-\n.constants --\n.outputs\n.inputs a ? b\n\
          .begin\nt1 b\n.end",
    ),
    (
        "names of every kind",
        b".version 1.0\n.numvars 3\n.variables Abc_1234 7 _\n.begin\nt2 _ 7\n.end\n",
    ),
    (
        "controls that fall",
        b".version 1.0\n.numvars 3\n.variables a b c\n.begin\nt3 c a b\n.end\n",
    ),
    (
        "no gates",
        b".version 1.0\n.numvars 2\n.variables a b\n.begin\n.end\n",
    ),
    (
        "32 names",
        b".version 1.0\n.numvars 32\n.variables x0 x1 x2 x3 x4 x5 x6 x7 x8 x9 x10 x11 x12 x13 x14 x15 x16 x17 x18 \
          x19 x20 x21 x22 x23 x24 x25 x26 x27 x28 x29 x30 x31\n.begin\nt2 x31 x0\nt2 x0 x31\n.end\n",
    ),
    (
        "32 names, a byte more",
        b".version 1.0\n.numvars 32\n.variables x0 x1 x2 x3 x4 x5 x6 x7 x8 x9 x10 x11 x12 x13 x14 x15 x16 \
          x17 x18 x19 x20 x21 x22 x23 x24 x25 x26 x27 x28 x29 x30 x31\n.begin\nt2 x31 x0\nt2 x10 x31\n.end\n",
    ),
];

// The first three lines.
const HEADS: [(&str, &[u8]); 11] = [
    ("nothing", b""),
    ("no .version", b".numvars 2\n.variables a b\n.begin\n.end\n"),
    (
        "no .numvars",
        b".version 1.0\n.variables a b\n.begin\n.end\n",
    ),
    ("no .variables", b".version 1.0\n.numvars 2\n.begin\n.end\n"),
    (
        ".numvars without a number",
        b".version 1.0\n.numvars\n.variables a b\n.begin\n.end\n",
    ),
    (
        ".numvars 02",
        b".version 1.0\n.numvars 02\n.variables a b\n.begin\n.end\n",
    ),
    (
        ".numvars 3 and two names",
        b".version 1.0\n.numvars 3\n.variables a b\n.begin\n.end\n",
    ),
    (
        ".numvars of 2^64 + 2 and two names",
        b".version 1.0\n.numvars 18446744073709551618\n.variables a b\n.begin\n.end\n",
    ),
    (
        "a name twice",
        b".version 1.0\n.numvars 2\n.variables a a\n.begin\n.end\n",
    ),
    (
        "a name of 9",
        b".version 1.0\n.numvars 2\n.variables a longnames\n.begin\n.end\n",
    ),
    (
        "a name with a hyphen",
        b".version 1.0\n.numvars 2\n.variables a b-\n.begin\n.end\n",
    ),
];

// The other lines with a dot.
const PARTS: [(&str, &[u8]); 11] = [
    (
        "an unknown part",
        b".version 1.0\n.numvars 2\n.variables a b\n.define\n.begin\n.end\n",
    ),
    (
        ".inputs twice",
        b".version 1.0\n.numvars 2\n.variables a b\n.inputs\n.outputs\n.inputs\n.begin\n.end\n",
    ),
    (
        ".constants 0-",
        b".version 1.0\n.numvars 2\n.variables a b\n.constants 0-\n.begin\n.end\n",
    ),
    (
        ".constants - -",
        b".version 1.0\n.numvars 2\n.variables a b\n.constants - -\n.begin\n.end\n",
    ),
    (
        "no .begin",
        b".version 1.0\n.numvars 2\n.variables a b\nf1 a\n.end\n",
    ),
    (
        ".begin now",
        b".version 1.0\n.numvars 2\n.variables a b\n.begin now\n.end\n",
    ),
    (
        ".inputs after .begin",
        b".version 1.0\n.numvars 2\n.variables a b\n.begin\n.inputs\n.end\n",
    ),
    (
        ".end now",
        b".version 1.0\n.numvars 2\n.variables a b\n.begin\n.end now\n",
    ),
    (
        "no .end",
        b".version 1.0\n.numvars 2\n.variables a b\n.begin\nt1 a\n",
    ),
    (
        "no .end and no last LF",
        b".version 1.0\n.numvars 2\n.variables a b\n.begin\nt1 a",
    ),
    (
        "a gate after .end",
        b".version 1.0\n.numvars 2\n.variables a b\n.begin\n.end\n\nt1 a\n",
    ),
];

// Gates that cannot be read.
const GATES: [(&str, &[u8]); 14] = [
    (
        "t",
        b".version 1.0\n.numvars 2\n.variables a b\n.begin\nt a\n.end\n",
    ),
    (
        "t0",
        b".version 1.0\n.numvars 2\n.variables a b\n.begin\nt0\n.end\n",
    ),
    (
        "t02",
        b".version 1.0\n.numvars 2\n.variables a b\n.begin\nt02 a b\n.end\n",
    ),
    (
        "2t",
        b".version 1.0\n.numvars 2\n.variables a b\n.begin\n2t a b\n.end\n",
    ),
    (
        "t2 and one name",
        b".version 1.0\n.numvars 2\n.variables a b\n.begin\nt2 a\n.end\n",
    ),
    (
        "a name that is not declared",
        b".version 1.0\n.numvars 2\n.variables a b\n.begin\nt2 a c\n.end\n",
    ),
    (
        "a control twice",
        b".version 1.0\n.numvars 2\n.variables a b\n.begin\nt3 a a b\n.end\n",
    ),
    (
        "a CR in a line",
        b".version 1.0\n.numvars 2\n.variables a b\n.begin\nt2 a\r b\n.end\n",
    ),
    (
        "a byte of 127",
        b".version 1.0\n.numvars 2\n.variables a b\n.begin\nt2 a b\x7f\n.end\n",
    ),
    (
        "f2",
        b".version 1.0\n.numvars 2\n.variables a b\n.begin\nf2 a b\n.end\n",
    ),
    (
        "T2",
        b".version 1.0\n.numvars 2\n.variables a b\n.begin\nT2 a b\n.end\n",
    ),
    (
        "15 and 14 on one line",
        b".version 1.0\n.numvars 2\n.variables a b\n.begin\nv9 c\xff\n.end\n",
    ),
    (
        "14 on a line, 15 on the next",
        b".version 1.0\n.numvars 2\n.variables a b\n.begin\nt2 a c\nf2 a b\n.end\n",
    ),
    (
        "15 on a line, 14 on the next",
        b".version 1.0\n.numvars 2\n.variables a b\n.begin\nf2 a b\nt2 a c\n.end\n",
    ),
];

// Texts of the form that are refused: 14 comes before 3 and 7, and 7 before 10.
const CIRCUITS: [(&str, &[u8]); 7] = [
    (
        ".numvars 0",
        b".version 1.0\n.numvars 0\n.variables\n.begin\n.end\n",
    ),
    (
        ".numvars 0, no .end",
        b".version 1.0\n.numvars 0\n.variables\n.begin\n",
    ),
    (
        "33 names",
        b".version 1.0\n.numvars 33\n.variables x0 x1 x2 x3 x4 x5 x6 x7 x8 x9 x10 x11 x12 x13 x14 x15 x16 x17 x18 \
          x19 x20 x21 x22 x23 x24 x25 x26 x27 x28 x29 x30 x31 x32\n.begin\n.end\n",
    ),
    (
        "a target among its controls",
        b".version 1.0\n.numvars 2\n.variables a b\n.begin\nt1 a\nt3 a b b\n.end\n",
    ),
    (
        "a target among its controls, no .end",
        b".version 1.0\n.numvars 2\n.variables a b\n.begin\nt1 a\nt3 a b b\n",
    ),
    (
        "room for a word less",
        b".version 1.0\n.numvars 2\n.variables a b\n.begin\nt1 a\nt2 a b\nt1 b\n.end\n",
    ),
    (
        "room for a word less, a target among its controls",
        b".version 1.0\n.numvars 2\n.variables a b\n.begin\nt1 a\nt2 b b\n\
          t1 b\n.end\n",
    ),
];

fn show_many(rt: &impl Print, asked: &str, text: &[u8]) -> io::Result<()> {
    let mut room = [9; 3072];
    print!(rt; "{asked}: ")?;
    say_imported(rt, real_import::import(text, &mut room))?;
    println!(rt)
}

// As many gates as a circuit may have; then the last, which has two controls, cut in two.
fn limits(rt: &impl Print) -> io::Result<()> {
    let mut gates = [0; 3072];
    let mut text = [b'\n'; 6206];
    gates[3069] = 6;
    let _ = real_export::export(3, &gates, &mut text);
    show_many(rt, "1,024 gates", &text)?;
    text[6190] = b'1';
    text[6194] = b'\n';
    text[6195] = b't';
    text[6196] = b'1';
    show_many(rt, "1,025 gates", &text)
}

fn main(rt: HostRuntime) -> io::Result<()> {
    show_each(&rt, &FORMS)?;
    show_each(&rt, &HEADS)?;
    show_each(&rt, &PARTS)?;
    show_each(&rt, &GATES)?;
    show_each(&rt, &CIRCUITS)?;
    limits(&rt)
}
