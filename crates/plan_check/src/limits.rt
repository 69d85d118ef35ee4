// From where on partitions wait long.

/// The greatest mark under which partitions don't wait long: rows of the largest plan, of 344 edges, have
/// less than one mark each to go with them then, so that a longer one saves hardly any.
pub const LONG_MARK: u64 = 512;
