// The limits of runs.

/// A run has at most so many threads. It has one at least.
pub const MAX_THREADS: u32 = 16;

/// No event of a node sends more packets.
pub const MOST_PACKETS: usize = 24;
