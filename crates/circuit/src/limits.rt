// The limits of a circuit and of a set of vectors, and the lengths of arrays that hold the largest.

// Lines of a circuit: as many as a word has bits.
pub const MOST_LINES: u32 = 32;

// Gates of a circuit.
pub const MOST_GATES: usize = 1024;

// Vectors of a set.
pub const MOST_VECTORS: usize = 2048;

// Levels of the longest circuit: the input, and one after each gate.
pub const LEVELS: usize = MOST_GATES + 1;

// Words of the longest list of gates, three a gate.
pub const GATE_WORDS: usize = 3 * MOST_GATES;
