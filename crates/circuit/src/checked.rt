// Gates and runs of a circuit that is known to be sound.
ghost use Rattle.std.specs.Prelude.{◌≡◌, ◌*◌, ◌<◌, ◌≤◌, length};
ghost use Rattle.circuit.specs.Limits.{most_lines};
ghost use Rattle.circuit.specs.Gates.{gates_of, gate_at};
ghost use Rattle.circuit.specs.Controls.{is_control, with_control, touches, is_other, stopping};
ghost use Rattle.circuit.specs.Runs.{fires, step, forward, onward, backward};
ghost use Rattle.circuit.specs.Sound.{GateOk, GateOk-prop, Sound, Sound-prop};
ghost use Rattle.words.specs.WordOf.{word_of};

use crate::numbers::{GateNumber, LevelNumber};
use crate::{Gate, numbers};
use words;

// A circuit that breaks no rule: its lines, and its gates as they are lent, three words a gate.
#[derive(Clone, Copy)]
pub struct Circuit<'a> {
    pub lines: u32,
    pub gates: &'a [u32],
    pub ghost sound: { Sound lines gates.now } by { Sound-prop lines gates.now },
}

impl<'a> Circuit<'a> {
    ghost use Rattle.circuit.specs.Checked.{gates_in};

    // How many gates it has.
    pub fn depth(&self) -> usize
        ensures { result ≡ length (gates_in self.now) }
    {
        self.gates.len() / 3
    }

    // The gate of a number: three words of the list.
    pub fn gate(&self, number: GateNumber) -> Gate
        requires { (0 < number.0) × (number.0 ≤ length (gates_in self.now)) }
        ensures { result ≡ gate_at (gates_in self.now) number.0 }
    {
        gate_at(self.gates, number)
    }

    // The same with the number of lines that it may stand on.
    pub fn own_gate(&self, number: GateNumber) -> OwnGate
        requires { (0 < number.0) × (number.0 ≤ length (gates_in self.now)) }
        ensures { (result.lines ≡ self.now.lines) × (result.gate ≡ gate_at (gates_in self.now) number.0) }
    {
        OwnGate {
            lines: self.lines,
            gate: self.gate(number),
        }
    }

    // From one level up to another.
    pub fn run_onward(&self, from: LevelNumber, to: LevelNumber, state: u32) -> u32
        requires from_le_to { (from.0 ≤ to.0) × (to.0 ≤ length (gates_in self.now)) }
        ensures { result ≡ onward (gates_in self.now) from.0 to.0 state }
    {
        let mut now = state;
        for i in numbers::gates_before(from)..numbers::gates_before(to) {
            now = step(self.gate(numbers::gate_after(numbers::level(i))), now);
        }
        now
    }

    // From the input to a level.
    pub fn run_forward(&self, level: LevelNumber, vector: u32) -> u32
        requires { level.0 ≤ length (gates_in self.now) }
        ensures { result ≡ forward (gates_in self.now) level.0 vector }
    {
        self.run_onward(numbers::level(0), level, vector)
    }

    // From a level to the input: the same gates, last first.
    pub fn run_backward(&self, level: LevelNumber, state: u32) -> u32
        requires { level.0 ≤ length (gates_in self.now) }
        ensures { result ≡ backward (gates_in self.now) level.0 state }
    {
        let mut now = state;
        for taken in 0..numbers::gates_before(level) {
            now = step(self.gate(numbers::gate_back(level, taken)), now);
        }
        now
    }
}

// The gate of a number of a list that may break rules.
pub fn gate_at(gates: &[u32], gate: GateNumber) -> Gate
    requires { (0 < gate.0) × (3 * gate.0 ≤ length gates.now) }
    ensures { result ≡ gate_at (gates_of gates.now) gate.0 }
{
    let at = 3 * numbers::gates_ahead(gate);
    Gate {
        controls: gates[at],
        spare: gates[at + 1],
        target: gates[at + 2],
    }
}

// Whether all controls of a gate are 1.
#[tactic(auto, using(words::proofs::Coded::all_on_code), unfolding(crate::specs::Runs::fires))]
pub fn fires(gate: Gate, state: u32) -> bool
    ensures { result ≡ fires gate state }
{
    let controls = gate.controls;
    state & controls == controls
}

// Whether a line is a control of a gate.
#[tactic(auto, unfolding(crate::specs::Controls::is_control))]
pub fn is_control(gate: Gate, line: u32) -> bool
    requires { line < most_lines }
    ensures { result ≡ is_control gate line }
{
    words::checked::value(gate.controls, line) == 1
}

// Whether a line is neither a control nor the target of a gate.
#[tactic(auto, unfolding(crate::specs::Controls::is_other, crate::specs::Controls::touches))]
pub fn is_other(gate: Gate, line: u32) -> bool
    requires { line < most_lines }
    ensures { result ≡ is_other gate line }
{
    !(is_control(gate, line) || line == gate.target)
}

// The gate with a line that is a control where the value is 1, and none where it is 0.
#[tactic(auto, unfolding(crate::specs::Controls::with_control))]
pub fn with_control(gate: Gate, line: u32, value: u32) -> Gate
    requires { line < most_lines }
    ensures { result ≡ with_control line value gate }
{
    Gate {
        controls: words::checked::force(gate.controls, line, value),
        spare: gate.spare,
        target: gate.target,
    }
}

// What a gate makes of a state: the target bit flipped by a shifted one where the gate fires, and by a shifted zero elsewhere.
pub fn step(gate: Gate, state: u32) -> u32
    requires { gate.target < most_lines }
    ensures { result ≡ step gate state }
{
    let target = gate.target;
    state ^ ((fires(gate, state) as u32) << target)
}

// A gate of a circuit, and how many lines that has.
#[derive(Clone, Copy)]
pub struct OwnGate {
    pub lines: u32,
    pub gate: Gate,
    pub ghost fits: { (1 ≤ lines) × (lines ≤ most_lines) },
    pub ghost ok: { GateOk lines gate } by { GateOk-prop lines gate },
}

impl OwnGate {
    // Its controls, as a word.
    #[tactic(auto, using(crate::proofs::LineLaws::controls_word))]
    pub fn control_lines(self) -> u32
        ensures { result ≡ word_of self.lines (is_control self.gate) }
    {
        self.gate.controls
    }

    // Its lines, the controls and the target, as a word.
    #[tactic(auto, using(crate::proofs::LineLaws::touched_word))]
    pub fn touched_lines(self) -> u32
        ensures { result ≡ word_of self.lines (touches self.gate) }
    {
        words::checked::flip(self.gate.controls, self.gate.target)
    }

    // The lines that are neither a control nor the target, as a word.
    #[tactic(auto, using(crate::proofs::LineLaws::others_code))]
    pub fn other_lines(self) -> u32
        ensures { result ≡ word_of self.lines (is_other self.gate) }
    {
        let no_controls = self.gate.controls ^ words::checked::all_ones(self.lines);
        words::checked::flip(no_controls, self.gate.target)
    }

    // The controls that alone stop it: without one of them it would fire.
    #[tactic(auto, using(crate::proofs::StopLaws::stopping_code))]
    pub fn stopping_controls(self, state: u32) -> u32
        ensures { result ≡ stopping self.lines self.gate state }
    {
        words::lone_zero(self.gate.controls, state)
    }
}
