// Where a line can be stuck: the sites of each level, and their number.
ghost use Rattle.std.specs.Prelude.{◌≡◌, ◌≤◌, length};
ghost use Rattle.circuit.specs.Checked.{gates_in};
ghost use Rattle.faults.specs.Sites.{sites, site_count};

use circuit::checked::Circuit;
use circuit::numbers;
use circuit::numbers::LevelNumber;
use words;

// The lines that are sites at a level: all of them at the input, and the lines of the gate that makes any other level.
pub fn sites_at(circuit: &Circuit, level: LevelNumber) -> u32
    requires { level.0 ≤ length (gates_in circuit.now) }
    ensures { result ≡ sites circuit.now.lines (gates_in circuit.now) level.0 }
{
    if numbers::gates_before(level) == 0 {
        return words::checked::all_ones(circuit.lines);
    }
    circuit
        .own_gate(numbers::gate_making(level))
        .touched_lines()
}

// The number of sites, over all levels.
pub fn site_count(circuit: &Circuit) -> u32
    ensures { result ≡ site_count circuit.now.lines (gates_in circuit.now) }
{
    let mut sum = 0;
    for i in 0..circuit.depth() + 1 {
        sum += words::ones(sites_at(circuit, numbers::level(i)));
    }
    sum
}
