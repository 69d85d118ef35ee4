// The limits of a text of events.

/// The greatest length of a text of events, in bytes.
pub const MAX_EVENTS_BYTES: u64 = 536_870_912;

/// The greatest number of events of a text, repeats counted.
pub const MAX_EVENTS: usize = 20_000_000;

/// How often a line may repeat its event. The least is 1.
pub const MAX_REPEATS: u64 = 1_000_000;

/// The greatest place of a packet on its link that a line may name.
pub const MAX_INDEX: u64 = 4_611_686_018_427_387_903;
