// A stage of a plan.
use op_spec::OpSpec;
use tuple_edge::Column;

/// A stage of a dataflow.
#[derive(Clone, Copy, Debug, PartialEq, Eq)]
pub struct Stage {
    /// In how many partitions it runs: 1 to [`MAX_PARTS`](crate::MAX_PARTS).
    pub parts: u32,
    /// The column by which a row that enters the stage is routed to a partition.
    pub by: Column,
    /// What each partition does.
    pub op: OpSpec,
}
