// How much a node does in a turn.

/// How many packets, makes of inputs and pieces of work one turn of a node has at most, of each so many.
pub const PORTION: u64 = 512;

/// The same in a run under a script that has orders. A node obeys orders only as a turn begins, so a longer turn would go
/// further past the count of one.
pub const PORTION_UNDER_ORDERS: u64 = 64;
