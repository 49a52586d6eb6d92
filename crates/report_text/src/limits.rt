// The length of a report, and of as much input as tells it, in bytes.
use job::limits::LONGEST_JOB;

// The longest report.
pub const LONGEST_REPORT: usize = 100;

// One byte more than the longest job, which tells any input that is longer.
pub const INPUT_ROOM: usize = LONGEST_JOB + 1;
