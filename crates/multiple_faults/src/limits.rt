// The limit of a multiple fault.

// Entries of a multiple fault.
pub const MOST_ENTRIES: usize = 256;
