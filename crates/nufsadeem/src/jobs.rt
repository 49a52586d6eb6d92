// Jobs for C: read out of bytes, written into bytes, and reported on.
ghost use Rattle.std.specs.Prelude.{◌≡◌, [], ◌∷◌};
ghost use Rattle.job.specs.Promises.{read_tells, read_leaves_gates, read_leaves_vectors, write_tells, write_leaves};
ghost use Rattle.report_text.specs.Promises.{report_tells, report_leaves};
ghost use Rattle.answers.specs.Fields.{fields};

use answers::Count;
use answers::jobs::Job;

// A job out of bytes, into the fronts of two lists.
#[unsafe(no_mangle)]
pub extern "C" fn nuf_read_job(bytes: &[u8], gates: &mut [u32], vectors: &mut [u32]) -> Job
    ensures { ((result.number ∷ result.place ∷ result.lines ∷ result.classes ∷ result.gates ∷ result.vectors ∷ []) ≡ fields 4
        (read_tells bytes.now gates.old vectors.old))
        × ((gates.new ≡ read_leaves_gates bytes.now gates.old vectors.old)
        × (vectors.new ≡ read_leaves_vectors bytes.now gates.old vectors.old)) }
{
    job::read_job(bytes, gates, vectors).into()
}

// A job into the front of some bytes.
#[unsafe(no_mangle)]
pub extern "C" fn nuf_write_job(
    lines: u32,
    classes: u32,
    gates: &[u32],
    vectors: &[u32],
    out: &mut [u8],
) -> Count
    ensures { ((result.number ∷ result.place ∷ result.count ∷ []) ≡ fields 1
        (write_tells lines classes gates.now vectors.now out.old))
        × (out.new ≡ write_leaves lines classes gates.now vectors.now out.old) }
{
    job::write_job(lines, classes, gates, vectors, out).into()
}

// The report on a job into the front of some bytes.
#[unsafe(no_mangle)]
pub extern "C" fn nuf_report(bytes: &[u8], out: &mut [u8]) -> Count
    ensures { ((result.number ∷ result.place ∷ result.count ∷ []) ≡ fields 1 (report_tells bytes.now out.old))
        × (out.new ≡ report_leaves bytes.now out.old) }
{
    report_text::report(bytes, out).into()
}
