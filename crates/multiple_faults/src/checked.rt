// Several stuck lines that a sound circuit is known to have, and the run with all of them stuck.
ghost use Rattle.std.specs.Prelude.{◌≡◌, ◌<◌, eqb};
ghost use Rattle.basics.specs.Choice.{choice};
ghost use Rattle.words.specs.Word.{force};
ghost use Rattle.circuit.specs.Limits.{most_lines};
ghost use Rattle.circuit.specs.Checked.{gates_in};
ghost use Rattle.faults.specs.Records.{faults_of};
ghost use Rattle.simulator.specs.Faulty.{force_at};
ghost use Rattle.multiple_faults.specs.Multiple.{caught_together};
ghost use Rattle.multiple_faults.specs.Entries.{Entries, Entries-prop};

use circuit::checked::{Circuit, step};
use circuit::numbers;
use circuit::numbers::LevelNumber;
use faults::{Fault, places, records};
use words;

// A multiple fault of a circuit: its entries as they are lent, four words each, every one a stuck line of the circuit.
#[derive(Clone, Copy)]
pub struct Multiple<'a> {
    pub circuit: Circuit<'a>,
    pub entries: &'a [u32],
    pub ghost known: { Entries circuit.lines (gates_in circuit) entries.now } by { Entries-prop circuit.lines (gates_in circuit) entries.now },
}

impl<'a> Multiple<'a> {
    // The lines stuck at a level, forced.
    #[tactic(auto, using(faults::proofs::RecordLaws::records_count, crate::proofs::StuckLaws::force_more, crate::proofs::StuckLaws::force_end))]
    fn force_level(&self, level: LevelNumber, state: u32) -> u32
        ensures { result ≡ force_at (faults_of self.now.entries.now) level.0 state }
    {
        let mut now = state;
        for i in 0..self.entries.len() / 4 {
            now = force_entry(records::record_at(self.entries, i), level, now);
        }
        now
    }

    // Whether a vector catches the stuck lines together: the good run and the faulty one side by side, and the outputs decide.
    pub fn caught_by(&self, vector: u32) -> bool
        ensures { result ≡ caught_together (gates_in self.now.circuit) (faults_of self.now.entries.now) vector }
    {
        let end = self.circuit.depth();
        let mut faulty = vector;
        let mut good = vector;
        for i in 0..end {
            let level = numbers::level(i);
            let gate = self.circuit.gate(numbers::gate_after(level));
            faulty = step(gate, self.force_level(level, faulty));
            good = step(gate, good);
        }
        self.force_level(numbers::level(end), faulty) != good
    }
}

// One entry's line, forced where the state is at its level.
fn force_entry(fault: Fault, level: LevelNumber, state: u32) -> u32
    requires { fault.line < most_lines }
    ensures { result ≡ choice (eqb fault.place level.0) (force state fault.line fault.value) state }
{
    if places::level_of(fault) == level {
        words::checked::force(state, fault.line, fault.value)
    } else {
        state
    }
}
