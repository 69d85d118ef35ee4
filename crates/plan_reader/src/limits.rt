// The limits of a plan. Those of an operator's settings stand with the operators.

/// The greatest length of a plan's text, in bytes.
pub const MAX_PLAN_BYTES: u64 = 65_536;

/// The greatest version of a plan. The least is 1, in which ingress has one source, the trades; in
/// version 2 it has two, trades and cash movements.
pub const MAX_VERSION: u32 = 2;

/// The greatest number of stages.
pub const MAX_STAGES: usize = 6;

/// The greatest number of partitions of a stage.
pub const MAX_PARTS: u32 = 8;

/// The greatest mark: after how many inputs ingress puts a mark. The least is 1.
pub const MAX_MARK: u64 = 4_096;

/// The mark where the plan says none.
pub const DEFAULT_MARK: u64 = 64;

/// The least hold: how many items an edge of ingress may hold.
pub const MIN_HOLD: u64 = 16;

/// The greatest hold.
pub const MAX_HOLD: u64 = 65_536;

/// The hold where the plan says none.
pub const DEFAULT_HOLD: u64 = 1_024;

/// The greatest number of edges for each input of the mark: a plan has at most this many times the
/// mark.
pub const EDGES_PER_MARK: u64 = 8;
