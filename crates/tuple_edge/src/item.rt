// What stands at one place of an edge, and the order in which a merge takes it.
ghost use Rattle.std.specs.Prelude.{◌≡◌};
ghost use Rattle.tuple_edge.specs.Item.{comes_before, kind_of, stamp_of};

use crate::Row;

/// Every number of an item, every count, mark, clock and incarnation is below this.
pub const NUMBER_LIMIT: u64 = 1 << 62;

/// What stands at one place of an edge. The stamp is the number that ingress gave, from 1.
#[derive(Clone, Copy, Debug, PartialEq, Eq)]
pub enum Item {
    /// A row that comes from the input of this stamp.
    Row { stamp: u64, row: Row },
    /// No further row of this stamp or an earlier one follows.
    Mark { stamp: u64 },
    /// Nothing follows.
    End { stamp: u64 },
}

impl Item {
    /// The number that ingress gave.
    pub fn stamp(&self) -> u64
        ensures { result ≡ stamp_of self.now }
    {
        match self {
            Item::Row { stamp, .. } => *stamp,
            Item::Mark { stamp } => *stamp,
            Item::End { stamp } => *stamp,
        }
    }

    // At one stamp rows come before the mark, and the mark before the end.
    fn kind(&self) -> u8
        ensures { result ≡ kind_of self.now }
    {
        match self {
            Item::Row { .. } => 0,
            Item::Mark { .. } => 1,
            Item::End { .. } => 2,
        }
    }

    /// Whether this item of source `from` comes before the other one of source `other_from`: by
    /// stamp, then row before mark before end, then source. No item comes before itself.
    pub fn before(&self, other: &Item, from: u32, other_from: u32) -> bool
        ensures { result ≡ comes_before self.now other.now from other_from }
    {
        let (stamp, other_stamp) = (self.stamp(), other.stamp());
        if stamp != other_stamp {
            return stamp < other_stamp;
        }
        let (kind, other_kind) = (self.kind(), other.kind());
        if kind != other_kind {
            return kind < other_kind;
        }
        from < other_from
    }
}
