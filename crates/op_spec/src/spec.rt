// What an operator is told to do.
ghost use Rattle.std.specs.Prelude.{◌≡◌, ◌↔◌, IsTrue};
ghost use Rattle.op_spec.specs.Compares.{holds};
ghost use Rattle.op_spec.specs.Keys.{key_of};
ghost use Rattle.op_spec.specs.Spec.{is_join, most_rows};
ghost use Rattle.op_spec.specs.Times.{IsTimely};

use tuple_edge::{Column, Item, Key, Row};

/// The greatest number of rows that a join keeps of each side of a key. Those that keep them have room for so many.
pub const MAX_JOIN_ROWS: u32 = 4;

/// The greatest number of rows that a `last` keeps for a key.
pub const MAX_LAST_ROWS: u32 = 64;

/// The greatest width of a window, in seconds.
pub const MAX_WINDOW_SECONDS: i64 = 1_000_000;

/// The greatest time of a row, in seconds; the least is 0.
pub const MAX_TIME_SECONDS: i64 = 9_999_999_999;

/// Whether the time of an item's row, if it has one, is within its limits.
pub fn is_timely(item: &Item) -> bool
    ensures { IsTrue result ↔ IsTimely item.now }
{
    match *item {
        Item::Row { row, .. } => 0 <= row.time && row.time <= MAX_TIME_SECONDS,
        Item::Mark { .. } | Item::End { .. } => true,
    }
}

/// What rows have in common that are kept together. A part of the key that isn't named is 0.
#[derive(Clone, Copy, Debug, PartialEq, Eq)]
pub enum By {
    Account,
    Symbol,
    /// Account and symbol.
    Both,
}

/// A comparison of a number with a limit.
#[derive(Clone, Copy, Debug, PartialEq, Eq)]
pub enum Compare {
    Less,
    AtMost,
    Equal,
    Unequal,
    AtLeast,
    Greater,
}

/// An operator with its settings.
#[derive(Clone, Copy, Debug, PartialEq, Eq)]
pub enum OpSpec {
    /// Passes on the rows whose column compares so with the limit.
    Keep {
        column: Column,
        compare: Compare,
        limit: i64,
    },
    /// Answers each row with the sums of its key's rows so far.
    Total {
        by: By,
    },
    /// Answers each row with the sums of its key's last `rows` rows: 1 to [`MAX_LAST_ROWS`].
    Last {
        by: By,
        rows: u32,
    },
    /// Answers with the sums of a key's window of time once a row opens a later one, and at the
    /// end. `width` is in seconds: 1 to [`MAX_WINDOW_SECONDS`].
    Window {
        by: By,
        width: i64,
    },
    /// Answers a row with its key's sums where it takes the size of the value's sum above `limit`
    /// or back. `limit` is in cents, at least 0.
    Crossing {
        by: By,
        limit: i64,
    },
    /// Answers each row with its pairs: one row for each of the key's last `rows` rows of the other
    /// side that lies in the same window of time, with the sums of both. A row is left where its
    /// column compares so with the limit, and right where it does not. `width` is in seconds: 1 to
    /// [`MAX_WINDOW_SECONDS`]. `rows` is 1 to [`MAX_JOIN_ROWS`].
    Join {
        by: By,
        width: i64,
        rows: u32,
        column: Column,
        compare: Compare,
        limit: i64,
    },
}

impl OpSpec {
    /// Whether it is a join.
    pub fn is_join(self) -> bool
        ensures { result ≡ is_join self }
    {
        matches!(self, OpSpec::Join { .. })
    }

    /// At most how many rows answer one row.
    pub fn most_rows(&self) -> u64
        ensures { result ≡ most_rows self.now }
    {
        match self {
            OpSpec::Join { rows, .. } => u64::from(*rows),
            _ => 1,
        }
    }
}

impl By {
    /// The key of a row.
    pub fn key(self, row: &Row) -> Key
        ensures { result ≡ key_of self row.now }
    {
        match self {
            By::Account => Key {
                account: row.account,
                symbol: 0,
            },
            By::Symbol => Key {
                account: 0,
                symbol: row.symbol,
            },
            By::Both => Key {
                account: row.account,
                symbol: row.symbol,
            },
        }
    }
}

impl Compare {
    /// Whether the number compares so with the limit.
    pub fn holds(self, number: i64, limit: i64) -> bool
        ensures { result ≡ holds self number limit }
    {
        match self {
            Compare::Less => number < limit,
            Compare::AtMost => number <= limit,
            Compare::Equal => number == limit,
            Compare::Unequal => number != limit,
            Compare::AtLeast => number >= limit,
            Compare::Greater => number > limit,
        }
    }
}
