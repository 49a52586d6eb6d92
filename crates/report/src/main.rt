// The report program: one job from standard input, its report to standard output.
// What could not be read or written it says on standard error, and an input that was not read to its end gets no report.
#![tactic(auto)]

ghost use Rattle.std.specs.Prelude.{◌≡◌, ◌≤◌, length, take, IfOk};
ghost use Rattle.std.specs.Counts.{IsPrefixLen};
ghost use Rattle.report_text.specs.Report.{report_text, input_room};
ghost use Rattle.report.specs.Input.{IsFront};

use report_text::limits::{INPUT_ROOM, LONGEST_REPORT};
use std::io;
use std::io::Read;

// What is read of an input: as much as tells its report.
const ROOM: usize = INPUT_ROOM;

// What is read is within the room, which is the one that the promise of the text asks for. Nobody is left to be told that a complaint failed.
fn main(rt: HostRuntime) {
    let mut job = [0u8; ROOM];
    let Ok(length) = read_input(&mut rt.stdin(), &mut job) else {
        let _ = rt.eprintln("report: the input could not be read");
        return;
    };
    let mut text = [0u8; LONGEST_REPORT];
    let end = text_of(&job, length, &mut text);
    if rt.write_all(&text[..end]).is_err() {
        let _ = rt.eprintln("report: the report could not be written");
    }
}

// Reads until the room is full or the input ends. A read answers 0 at the end and an error where it fails.
#[tactic(auto, using(crate::proofs::ReadLaws::read_more))]
fn read_input<R: Read>(input: &mut R, job: &mut [u8]) -> io::Result<usize>
    ensures within { IfOk result (λ done. done ≤ length job.old) }
    ensures front { IfOk result (λ done. IsFront done (R.remaining input.old) job.new) }
{
    let mut done = 0;
    while done < job.len() {
        let more = input.read(&mut job[done..])?;
        if more == 0 {
            return Ok(done);
        }
        done += more;
    }
    Ok(done)
}

// The report on the bytes that were read, and where it ends. There is room for any, so the call answers.
fn text_of(job: &[u8; ROOM], length: usize, text: &mut [u8; LONGEST_REPORT]) -> usize
    requires { length ≤ input_room }
    ensures prefix_len { IsPrefixLen result text.new }
    ensures text_after { take result text.new ≡ report_text (take length job.now) }
{
    match report_text::report(&job[..length], text) {
        Ok(count) => count as usize,
        Err(_) => 0,
    }
}
