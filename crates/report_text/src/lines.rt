// Lines of a letter and numbers, put part by part.
ghost use Rattle.basics.specs.Lists.{each};
ghost use Rattle.text.specs.Writing.{Fits, Put};
ghost use Rattle.report_text.specs.Lines.{spaced};
ghost use Rattle.report_text.specs.Parts.{end_text, numbers_line};

use text::writing::Writer;

// A blank before each number.
fn put_spaced(text: &mut Writer, numbers: &[u32])
    requires { Fits text.old (each spaced numbers.now) }
    ensures { Put text.old text.new (each spaced numbers.now) }
{
    for number in numbers {
        text.put(b" ");
        text.put_decimal(*number);
    }
}

// The end of a line, with or without ok before it.
fn put_end(text: &mut Writer, ok: bool)
    requires { Fits text.old (end_text ok) }
    ensures { Put text.old text.new (end_text ok) }
{
    if ok {
        text.put(b" ok\n");
    } else {
        text.put(b"\n");
    }
}

// A line of a letter and numbers.
pub fn put_line(text: &mut Writer, letter: u8, numbers: &[u32], ok: bool)
    requires { Fits text.old (numbers_line letter numbers.now ok) }
    ensures { Put text.old text.new (numbers_line letter numbers.now ok) }
{
    text.put(&[letter]);
    put_spaced(text, numbers);
    put_end(text, ok);
}
