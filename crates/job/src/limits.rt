// Lengths of a job, in bytes.
use circuit::limits::{MOST_GATES, MOST_VECTORS};

// The header.
pub const HEADER: usize = 28;

// The longest job.
pub const LONGEST_JOB: usize = HEADER + 12 * MOST_GATES + 4 * MOST_VECTORS;
