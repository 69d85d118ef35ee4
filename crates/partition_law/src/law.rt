// That the numbers of partitions are a matter of speed alone, as the contract of a function that does nothing.
ghost use Rattle.partition_law.specs.Law.{PartitionsAgree};

/// A law: two plans with the same operators that aren't warned of for their partitions give, for each key of the last
/// stage, the same rows in the same order.
pub fn partitions_agree()
    ensures { PartitionsAgree }
{}
