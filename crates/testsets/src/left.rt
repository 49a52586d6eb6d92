// The stuck-at faults of a circuit that are still left.
ghost use Rattle.std.specs.Prelude.{◌≡◌, [], ◌∷◌, ◌<◌, ◌^◌, length, get_or};
ghost use Rattle.std.specs.Int.Bits.{bit_and, bit_or, bit_xor};
ghost use Rattle.words.specs.Word.{lines_on};
ghost use Rattle.words.specs.WordOf.{lacking};
ghost use Rattle.circuit.specs.Checked.{gates_in};
ghost use Rattle.circuit.specs.Limits.{most_lines, levels};
ghost use Rattle.faults.specs.Classes.{stuck_faults};
ghost use Rattle.judge.specs.Judging.{uncaught_of};
ghost use Rattle.testsets.specs.Sets.{score};
ghost use Rattle.testsets.specs.Left.{Within, Within-prop, changed_at};

use circuit::checked::{Circuit, step};
use circuit::limits::LEVELS;
use circuit::numbers;
use circuit::numbers::LevelNumber;
use faults::sites::sites_at;
use words;

// For each level the lines whose stuck-at-0 fault is left, and those whose stuck-at-1 fault is: no other lines than its sites.
#[derive(Clone, Copy)]
pub struct Left<'a> {
    pub circuit: Circuit<'a>,
    at_0: [u32; LEVELS],
    at_1: [u32; LEVELS],
    pub ghost within: { Within circuit.lines (gates_in circuit) at_0 at_1 } by { Within-prop circuit.lines (gates_in circuit) at_0 at_1 },
}

impl<'a> Left<'a> {
    ghost use Rattle.testsets.specs.FaultsLeft.{faults_left};

    // No fault is left. It is then filled where it stands, since a struct that a longer function hands back is copied once more on the stack.
    pub fn none(circuit: &Circuit<'a>) -> Left<'a>
        ensures circuit { result.circuit ≡ circuit.now }
        ensures nothing_left { faults_left result ≡ [] }
    {
        Left {
            circuit: *circuit,
            at_0: [0; LEVELS],
            at_1: [0; LEVELS],
        }
    }

    // Every site of every level is left.
    pub fn fill(&mut self)
        ensures { (self.new.circuit ≡ self.old.circuit)
            × (faults_left self.new ≡ stuck_faults self.old.circuit.lines (gates_in self.old.circuit)) }
    {
        let circuit = self.circuit;
        for i in 0..circuit.depth() + 1 {
            let sites = sites_at(&circuit, numbers::level(i));
            self.at_0[i] = sites;
            self.at_1[i] = sites;
        }
    }

    // How many faults that are left a state catches at its level: stuck at 0 where the line is 1, and stuck at 1 where it is 0.
    fn newly(&self, level: LevelNumber, ones: u32, state: u32) -> u32
        requires { level.0 < levels }
        ensures { result ≡ length (lines_on most_lines (bit_or (bit_and state (get_or self.now.at_0 level.0 0))
            (bit_and (bit_xor state ones) (get_or self.now.at_1 level.0 0)))) }
    {
        let i = numbers::gates_before(level);
        words::ones((state & self.at_0[i]) | ((state ^ ones) & self.at_1[i]))
    }

    // How many faults that are left a vector catches, over all levels.
    pub fn score(&self, vector: u32) -> u32
        requires { vector < 2 ^ self.now.circuit.lines }
        ensures { result ≡ score (gates_in self.now.circuit) (faults_left self.now) vector }
    {
        let ones = words::checked::all_ones(self.circuit.lines);
        let last = self.circuit.depth();
        let mut sum = 0;
        let mut state = vector;
        for i in 0..last {
            let level = numbers::level(i);
            sum += self.newly(level, ones, state);
            state = step(self.circuit.gate(numbers::gate_after(level)), state);
        }
        sum + self.newly(numbers::level(last), ones, state)
    }

    // What a state leaves at its level: the stuck-at-0 faults of lines that are 0, and the stuck-at-1 faults of lines that are 1.
    fn drop_level(&mut self, level: LevelNumber, state: u32)
        requires { level.0 < levels }
        ensures { (self.new.circuit ≡ self.old.circuit)
            × (self.new.at_0 ≡ changed_at (λ word. lacking word state) level.0 self.old.at_0)
            × (self.new.at_1 ≡ changed_at (λ word. bit_and word state) level.0 self.old.at_1) }
    {
        let i = numbers::gates_before(level);
        self.at_0[i] = words::lacking(self.at_0[i], state);
        self.at_1[i] &= state;
    }

    // What a vector leaves, level by level.
    pub fn drop_caught(&mut self, vector: u32)
        ensures { (self.new.circuit ≡ self.old.circuit) × (faults_left self.new
            ≡ uncaught_of (gates_in self.old.circuit) (vector ∷ []) (faults_left self.old)) }
    {
        let circuit = self.circuit;
        let last = circuit.depth();
        let mut state = vector;
        for i in 0..last {
            let level = numbers::level(i);
            self.drop_level(level, state);
            state = step(circuit.gate(numbers::gate_after(level)), state);
        }
        self.drop_level(numbers::level(last), state);
    }
}
