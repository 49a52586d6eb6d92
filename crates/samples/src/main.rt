// The samples that are not proved as a table: each is run, and says what was asked and what came.
#![tactic(auto)]

ghost use Rattle.std.specs.Prelude.{◌<◌};

use judge::Verdict;
use refusals::Refusal;
use std::io;

// The sample job.
const SAMPLE: [u8; 64] = [
    1, 0, 3, 0, 15, 0, 0, 0, 2, 0, 0, 0, 3, 0, 0, 0, 28, 0, 0, 0, 52, 0, 0, 0, 64, 0, 0, 0, 3, 0,
    0, 0, 0, 0, 0, 0, 2, 0, 0, 0, 1, 0, 0, 0, 0, 0, 0, 0, 1, 0, 0, 0, 0, 0, 0, 0, 3, 0, 0, 0, 5, 0,
    0, 0,
];

fn show_run(rt: &impl Print, asked: &str, ran: Result<u32, Refusal>) -> io::Result<()> {
    match ran {
        Ok(state) => println!(rt; "{asked}: state {state}"),
        Err(refusal) => println!(rt; "{asked}: {refusal}"),
    }
}

fn show_verdict(rt: &impl Print, asked: &str, judged: Result<Verdict, Refusal>) -> io::Result<()> {
    let verdict = match judged {
        Ok(verdict) => verdict,
        Err(refusal) => return println!(rt; "{asked}: {refusal}"),
    };
    print!(rt; "{asked}: {} of {}, ", verdict.caught, verdict.total)?;
    match verdict.first {
        None => println!(rt; "complete"),
        Some(fault) => println!(rt;
            "first uncaught class {} place {} line {} value {}",
            fault.class, fault.place, fault.line, fault.value
        ),
    }
}

// The first two vectors of the room are shown too, where a set was made.
fn show_set(
    rt: &impl Print,
    asked: &str,
    made: Result<u32, Refusal>,
    room: &[u32; 16],
) -> io::Result<()> {
    match made {
        Ok(count) => println!(rt;
            "{asked}: {count} vectors, the first {} and {}",
            room[0], room[1]
        ),
        Err(refusal) => println!(rt; "{asked}: {refusal}"),
    }
}

fn show_job(rt: &impl Print, asked: &str, image: &[u8]) -> io::Result<()> {
    let mut gates = [0; 6];
    let mut vectors = [0; 3];
    match job::read_job(image, &mut gates, &mut vectors) {
        Ok(job) => println!(rt;
            "{asked}: {} lines, classes {}, gates {}, vectors {}",
            job.lines, job.classes, job.gates, job.vectors
        ),
        Err(refusal) => println!(rt; "{asked}: {refusal}"),
    }
}

// The sample job with one byte changed.
fn show_damaged(rt: &impl Print, asked: &str, at: usize, byte: u8) -> io::Result<()>
    requires { at < 64 }
{
    let mut image = SAMPLE;
    image[at] = byte;
    show_job(rt, asked, &image)
}

// Gates without a control and with target 0: as many as a circuit may have, and one more.
fn borders(rt: &impl Print) -> io::Result<()> {
    let most = [0; 3072];
    let more = [0; 3075];
    show_run(rt, "32 lines", circuit::forward(32, &most, 0, 4294967295))?;
    show_run(rt, "33 lines", circuit::forward(33, &most, 0, 0))?;
    show_run(rt, "1,024 gates", circuit::forward(1, &most, 1024, 1))?;
    show_run(rt, "1,025 gates", circuit::forward(1, &more, 0, 1))?;
    show_run(rt, "level d", circuit::forward(3, &most, 1024, 6))?;
    show_run(rt, "level d + 1", circuit::forward(3, &most, 1025, 6))
}

fn show_compact(rt: &impl Print, asked: &str, lines: u32, gates: &[u32]) -> io::Result<()> {
    let mut room = [9; 16];
    let made = testsets::compact_set(lines, gates, &mut room);
    show_set(rt, asked, made, &room)
}

fn sets(rt: &impl Print) -> io::Result<()> {
    let none = [0; 0];
    let gate = [0; 3];
    show_compact(rt, "compact set of 1 line and no gate", 1, &none)?;
    show_compact(rt, "compact set of 12 lines and 1 gate", 12, &gate)?;
    show_compact(rt, "compact set of 13 lines and 1 gate", 13, &gate)?;
    let stuck = judge::judge(1, &none, &none, 1);
    show_verdict(rt, "empty set on 1 line and no gate, class 1", stuck)?;
    let missing = judge::judge(1, &none, &none, 2);
    show_verdict(rt, "empty set on 1 line and no gate, class 2", missing)
}

fn jobs(rt: &impl Print) -> io::Result<()> {
    show_job(rt, "the sample job", &SAMPLE)?;
    show_job(rt, "27 bytes", &[0; 27])?;
    show_damaged(rt, "form 2", 0, 2)?;
    show_damaged(rt, "33 lines", 2, 33)?;
    show_damaged(rt, "no classes", 4, 0)?;
    show_damaged(rt, "1,026 gates", 9, 4)?;
    show_damaged(rt, "gates at 29", 16, 29)?;
    show_damaged(rt, "a spare word of 1", 44, 1)?;
    show_damaged(rt, "a vector of 8", 56, 8)
}

fn main(rt: HostRuntime) -> io::Result<()> {
    borders(&rt)?;
    sets(&rt)?;
    jobs(&rt)
}
