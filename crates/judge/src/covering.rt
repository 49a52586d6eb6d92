// The verdict on a set by way of a coverage: begun empty, given the vectors in turn, and counted for a class.
ghost use Rattle.std.specs.Prelude.{◌≡◌, ◌^◌, ◌<◌};
ghost use Rattle.basics.specs.Lists.{All};
ghost use Rattle.refusals.specs.Tables.{first_of};
ghost use Rattle.refusals.specs.Answers.{fine, told};
ghost use Rattle.circuit.specs.Gates.{gates_of};
ghost use Rattle.circuit.specs.Rules.{circuit_rows};
ghost use Rattle.judge.specs.Coverages.{empty_coverage, with_vector, with_all};
ghost use Rattle.judge.specs.Promises.{judge_tells, with_vector_tells};
ghost use Rattle.judge.specs.Answers.{verdict_values};

use crate::Verdict;
use crate::coverage::Coverage;
use circuit::rules::check_set;
use faults::rules::check_class;
use refusals::Refusal;

// Adds a vector that breaks no rule, so that it is not refused. It stays a function of its own: in a loop LLVM takes the `Result` of a coverage
// apart, a word at a time.
#[inline(never)]
#[tactic(auto, using(crate::proofs::SetLaws::covering))]
fn add(coverage: &mut Coverage, lines: u32, gates: &[u32], vector: u32)
    requires { fine ≡ with_vector_tells lines gates.now vector }
    ensures { coverage.new ≡ with_vector coverage.old lines (gates_of gates.now) vector }
{
    *coverage = coverage.with_vector(lines, gates, vector).unwrap();
}

// The coverage of a set that breaks no rule.
#[tactic(auto, using(crate::proofs::SetLaws::covering))]
fn covered_by(lines: u32, gates: &[u32], vectors: &[u32]) -> Coverage
    requires fine_value { fine ≡ first_of (circuit_rows lines gates.now) fine }
    requires all { All (λ x. x < 2 ^ lines) vectors.now }
    ensures { result ≡ with_all empty_coverage lines (gates_of gates.now) vectors.now }
{
    let mut coverage = Coverage::empty();
    for vector in vectors {
        add(&mut coverage, lines, gates, *vector);
    }
    coverage
}

// Judges a set for a class, as `judge` does, through a coverage.
#[tactic(auto, using(crate::proofs::RuleLaws::checks), unfolding(crate::specs::Rules::judge_rows))]
pub fn cover(lines: u32, gates: &[u32], vectors: &[u32], class: u32) -> Result<Verdict, Refusal>
    ensures { told verdict_values result ≡ judge_tells lines gates.now vectors.now class }
{
    check_set(lines, gates, vectors)?;
    check_class(class)?;
    covered_by(lines, gates, vectors).count(lines, gates, class)
}
