// Cash movements as a file has them, and how they are read.
ghost use Rattle.std.specs.Prelude.{◌≡◌, ◌≤◌, IfErr, IfOk, Ok, length, neg_ℤ, pos};
ghost use Rattle.trade_text.specs.Cash.{cash_of, cash_row};
ghost use Rattle.trade_text.specs.Limits.{max_account, max_amount, max_seconds};
ghost use Rattle.trade_text.specs.Refusals.{IsRefusalOf};
ghost use Rattle.trade_text.specs.TradesView.{IsBetween, IsInputRow};

use crate::columns::{CashColumns, cash_columns};
use crate::fields::{account_of, amount_of, time_of};
use crate::files::{RecordForm, located, open_file, rows_of, text_at};
use crate::{CashError, CashField, ReadError};
use csv::ByteRecord;
use std::alloc::Global;
use std::marker::Model;
use tuple_edge::Row;

/// Cash movements as rows. Contracts see the rows.
#[derive(Drop)]
pub struct Cash {
    rows: Vec<Row>,
}

impl Model for Cash {
    ghost use Rattle.std.specs.Prelude.{List, All};
    ghost use Rattle.trade_text.specs.TradesView.{IsInputRow};
    ghost use Rattle.tuple_edge.specs.declared.row.Row.{Row};

    ghost Value = { List Row };

    ghost view = { λ cash. cash.rows.items };

    ghost invariant = { λ cash. All IsInputRow cash.rows.items };
}

impl Cash {
    ghost use Rattle.std.specs.Prelude.{[], All};

    /// No movements.
    pub fn empty(alloc: Global) -> Cash
        ensures { result ≡ [] }
    {
        Cash {
            rows: Vec::new(alloc),
        }
    }

    /// The movements in the order of their file. A row has the time in seconds, the account, symbol 0,
    /// quantity 0, and as its value the amount in cents, below zero where money goes out.
    pub fn rows(&self) -> &[Row]
        ensures rows { result.now ≡ self.now }
        ensures limits { All IsInputRow self.now }
    {
        &self.rows
    }
}

// The row of a cash movement.
fn cash_row(time: u64, account: u64, amount: i64) -> Row
    requires time { time ≤ max_seconds }
    requires account { (1 ≤ account) × (account ≤ max_account) }
    requires amount { IsBetween (neg_ℤ (pos max_amount)) (pos max_amount) amount }
    ensures row { result ≡ cash_row time account amount }
    ensures within { IsInputRow result }
{
    Row {
        time: time as i64,
        account: account as i64,
        symbol: 0,
        qty: 0,
        value: amount,
    }
}

impl RecordForm<CashField> for CashColumns {
    ghost use Rattle.trade_text.specs.Cash.{cash_in};
    ghost use Rattle.trade_text.specs.TradesView.{IsInputRow};

    ghost row_in = { cash_in };

    // Nothing is kept from record to record.
    ghost stands = { λ columns. Unit {0} };

    ghost within = { IsInputRow };

    #[tactic(auto, unfolding(crate::specs::Cash::cash_in))]
    fn row(&mut self, _alloc: Global, rec: u64, fields: &ByteRecord) -> Result<Row, CashError> {
        if fields.len() != self.count {
            return Err(ReadError::Row { rec });
        }
        let time = located(rec, CashField::Time, time_of(text_at(fields, self.time)))?;
        let account = located(
            rec,
            CashField::Account,
            account_of(text_at(fields, self.account)),
        )?;
        let amount = located(
            rec,
            CashField::Amount,
            amount_of(text_at(fields, self.amount)),
        )?;
        Ok(cash_row(time, account, amount))
    }
}

/// Reads the cash movements of a text, as [`read_trades`](crate::read_trades) reads trades: the header,
/// whose names stand in any order and case, and then a movement a record. `room` is how many movements
/// there may be: 100,000 less the number of trades. Where something is refused, the answer is the first
/// such thing, record by record, and in a record in the order of [`CashField`].
#[tactic(auto, unfolding(crate::specs::Cash::cash_of))]
pub fn read_cash(alloc: Global, bytes: &[u8], room: u32) -> Result<Cash, CashError>
    ensures answers { IfOk result (λ cash. cash_of bytes.now room ≡ Ok cash) }
    ensures few { IfOk result (λ cash. length cash ≤ room) }

    // Want of memory alone is no refusal of the text.
    ensures refused { IfErr result (λ error. IsRefusalOf error (cash_of bytes.now room)) }
{
    let mut fields = ByteRecord::new(alloc);
    let mut reader = open_file(alloc, bytes, &mut fields)?;
    let mut columns = cash_columns(&fields)?;
    let rows = rows_of(alloc, &mut columns, &mut reader, &mut fields, room as usize)?;
    Ok(Cash { rows })
}
