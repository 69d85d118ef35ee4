// Sums of rows.
use tuple_edge::{Key, Row, saturating_sum_of};

/// A quantity and a value: of one row, or the sums over a key's rows.
#[derive(Clone, Copy, Debug, PartialEq, Eq)]
pub struct Sums {
    /// Shares.
    pub qty: i64,
    /// Cents.
    pub value: i64,
}

impl Sums {
    ghost use Rattle.std.specs.Prelude.{◌≡◌};
    ghost use Rattle.stream_ops.specs.Sums.{amounts, is_above, sums_row, sums_with};
    ghost use Rattle.stream_ops.specs.Steps.{no_sums};

    // The sums of no rows.
    pub(crate) fn none() -> Sums
        ensures { result ≡ no_sums }
    {
        Sums { qty: 0, value: 0 }
    }

    // The sums that an entry tells.
    pub(crate) fn told(qty: &i64, value: &i64) -> Sums
        ensures { result ≡ record { qty = qty.now; value = value.now } }
    {
        Sums {
            qty: *qty,
            value: *value,
        }
    }

    // The quantity and value of a row.
    pub(crate) fn of(row: &Row) -> Sums
        ensures { result ≡ amounts row.now }
    {
        Sums {
            qty: row.qty,
            value: row.value,
        }
    }

    // These sums and more, each stopped at the bounds.
    pub(crate) fn with(self, more: &Sums) -> Sums
        ensures { result ≡ sums_with self more.now }
    {
        Sums {
            qty: saturating_sum_of(self.qty, more.qty),
            value: saturating_sum_of(self.value, more.value),
        }
    }

    // The row that tells a key's sums at a time.
    pub(crate) fn row(&self, time: i64, key: &Key) -> Row
        ensures { result ≡ sums_row time key.now self.now }
    {
        Row {
            time,
            account: key.account,
            symbol: key.symbol,
            qty: self.qty,
            value: self.value,
        }
    }

    // Whether the size of the value is above a limit.
    pub(crate) fn is_above(&self, limit: i64) -> bool
        ensures { result ≡ is_above limit self.now.value }
    {
        i128::from(limit) < i128::from(self.value.unsigned_abs())
    }
}
