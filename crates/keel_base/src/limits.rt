// The bounds of what a store numbers and takes.

/// The last number that a store draws: of sequences, files, jobs and tickets. It is 2^56.
pub const LAST_NUMBER: u64 = 1 << 56;

/// The most bytes of a key, which has at least one.
pub const LONGEST_KEY: usize = 1024;

/// The most bytes of a value, which may be empty.
pub const LONGEST_VALUE: usize = 65_536;

/// The most ops of a batch, which has at least one.
pub const MOST_OPS: usize = 1000;

/// What the ops of a batch weigh together at most, and the batches of a group unless it is one batch: in bytes, of
/// which each op counts 16 beside its key and value.
pub const GREATEST_WEIGHT: u64 = 1_048_576;
