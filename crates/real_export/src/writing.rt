// The text of a circuit, put part by part. Each `put` answers where what it puts ends, and stores it where there is room for it:
// so a text that is put into no bytes is counted. What puts more than a name is inlined, so that counting makes no bytes and tests no room.
ghost use Rattle.std.specs.Prelude.{◌≡◌, ◌+◌, ◌<◌, ◌≤◌, ◌^◌, [], ◌∷◌, length};
ghost use Rattle.basics.specs.Lists.{each};
ghost use Rattle.text.specs.Decimal.{decimal};
ghost use Rattle.circuit.specs.Checked.{gates_in};
ghost use Rattle.circuit.specs.Limits.{most_lines};
ghost use Rattle.real.specs.Export.{real_text};
ghost use Rattle.real_export.specs.Parts.{Put, spaced_name, names_on, gate_text, head_text};

use circuit::checked::{Circuit, OwnGate};
use circuit::numbers;
use text::put_bytes;
use words;

// Bytes as they are.
fn put(out: &mut [u8], at: usize, bytes: &[u8]) -> usize
    requires { at + length bytes.now < 2 ^ 63 }
    ensures { Put out.old at bytes.now out.new result }
{
    if at + bytes.len() <= out.len() {
        return put_bytes(out, at, bytes);
    }
    at + bytes.len()
}

// One byte.
fn put_byte(out: &mut [u8], at: usize, byte: u8) -> usize
    requires { at + 1 < 2 ^ 63 }
    ensures { Put out.old at (byte ∷ []) out.new result }
{
    if at < out.len() {
        out[at] = byte;
    }
    at + 1
}

// A number below 100 in decimal.
fn put_number(out: &mut [u8], at: usize, x: u32) -> usize
    requires { (x < 100) × (at + length (decimal x) < 2 ^ 63) }
    ensures { Put out.old at (decimal x) out.new result }
{
    if x < 10 {
        return put_byte(out, at, b'0' + x as u8);
    }
    let last = put_byte(out, at, b'0' + (x / 10) as u8);
    put_byte(out, last, b'0' + (x % 10) as u8)
}

// One blank and the name of a line.
fn put_name(out: &mut [u8], at: usize, line: u32) -> usize
    requires { (line < most_lines) × (at + length (spaced_name line) < 2 ^ 63) }
    ensures { Put out.old at (spaced_name line) out.new result }
{
    let letter = put_byte(out, at, b' ');
    let number = put_byte(out, letter, b'x');
    put_number(out, number, line)
}

// The names of the lines that are 1 in a word, rising.
#[inline(always)]
fn put_names(out: &mut [u8], at: usize, word: u32) -> usize
    requires { at + length (names_on most_lines word) < 2 ^ 63 }
    ensures { Put out.old at (names_on most_lines word) out.new result }
{
    let mut end = at;
    let mut left = word;
    for _ in 0..words::ones(word) {
        let line = words::checked::lowest(left);
        end = put_name(out, end, line);
        left = words::checked::flip(left, line);
    }
    end
}

// The line of a gate.
#[inline(always)]
fn put_gate(out: &mut [u8], at: usize, own: OwnGate) -> usize
    requires { at + length (gate_text own.lines own.gate) < 2 ^ 63 }
    ensures { Put out.old at (gate_text own.lines own.gate) out.new result }
{
    let number = put_byte(out, at, b't');
    let names = put_number(out, number, words::ones(own.gate.controls) + 1);
    let target = put_names(out, names, own.gate.controls);
    let last = put_name(out, target, own.gate.target);
    put_byte(out, last, b'\n')
}

// The lines of all gates.
#[inline(always)]
fn put_gates(out: &mut [u8], at: usize, circuit: &Circuit) -> usize
    requires { at + length (each (gate_text circuit.now.lines) (gates_in circuit.now)) < 2 ^ 63 }
    ensures { Put out.old at (each (gate_text circuit.now.lines) (gates_in circuit.now)) out.new result }
{
    let mut end = at;
    for i in 0..circuit.depth() {
        end = put_gate(out, end, circuit.own_gate(numbers::gate(i + 1)));
    }
    end
}

// The lines before the gates.
#[inline(always)]
fn put_head(out: &mut [u8], lines: u32) -> usize
    requires { lines ≤ most_lines }
    ensures { Put out.old 0 (head_text lines) out.new result }
{
    let number = put(out, 0, b".version 1.0\n.numvars ");
    let variables = put_number(out, number, lines);
    let names = put(out, variables, b"\n.variables");
    let begin = put_names(out, names, words::checked::all_ones(lines));
    put(out, begin, b"\n.begin\n")
}

// The whole text.
#[inline(always)]
pub fn put_text(circuit: &Circuit, out: &mut [u8]) -> usize
    ensures { Put out.old 0 (real_text circuit.now.lines circuit.now.gates.now) out.new result }
{
    let gates = put_head(out, circuit.lines);
    let end = put_gates(out, gates, circuit);
    put(out, end, b".end\n")
}

// How long it is.
pub fn text_length(circuit: &Circuit) -> usize
    ensures { result ≡ length (real_text circuit.now.lines circuit.now.gates.now) }
{
    put_text(circuit, &mut [])
}
