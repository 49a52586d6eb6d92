// The limit of the compact set.

// Lines of a circuit of which every input is tried.
pub const MOST_TRIED_LINES: u32 = 12;
