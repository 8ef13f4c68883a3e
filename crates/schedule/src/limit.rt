/// A file has at most as many arms as a gate.
pub const ARM_LIMIT: usize = gate_model::arm::ARM_LIMIT;

/// A schedule file has at most this many bytes.
pub const FILE_LIMIT: usize = 60_000;

/// The largest number that two groups of seven bits hold.
pub const LARGEST_NUMBER: u32 = 16_383;
