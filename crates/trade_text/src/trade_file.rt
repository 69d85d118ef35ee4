// Trades as a file has them, and how they are read.
ghost use Rattle.std.specs.Prelude.{◌≡◌, ◌≤◌, ◌<◌, ◌^◌, IfErr, IfOk, Ok, false, length};
ghost use Rattle.trade_text.specs.Limits.{max_account, max_cents, max_qty, max_seconds, max_symbols};
ghost use Rattle.trade_text.specs.Refusals.{IsRefusalOf, Reads};
ghost use Rattle.trade_text.specs.Signed.{signed};
ghost use Rattle.trade_text.specs.Trades.{symbol_in, trade_row, trades_of};
ghost use Rattle.trade_text.specs.TradesView.{IsInputRow};

use crate::columns::{TradeColumns, trade_columns};
use crate::fields::{Side, account_of, is_symbol, price_of, qty_of, side_of, time_of};
use crate::files::{MAX_INPUTS, RecordForm, located, open_file, rows_of, text_at};
use crate::symbols::Symbols;
use crate::trades::only_trades;
use crate::{Field, ReadError, TradeError, Trades};
use csv::ByteRecord;
use std::alloc::Global;
use tuple_edge::Row;

/// Where the fields of trades stand, and the symbols that are known.
#[derive(Drop)]
pub struct TradeForm {
    pub columns: TradeColumns,
    pub symbols: Symbols,
}

// A number as it counts: below zero for a sale.
fn signed(side: Side, number: u64) -> i64
    requires { number < 2 ^ 63 }
    ensures { result ≡ signed side number }
{
    match side {
        Side::Buy => number as i64,
        Side::Sell => -(number as i64),
    }
}

// The number of a record's symbol, which becomes known where it is new.
#[tactic(auto, unfolding(crate::specs::Trades::symbol_in))]
fn symbol_in(alloc: Global, rec: u64, symbols: &mut Symbols, text: &[u8]) -> Result<u64, TradeError>
    requires { length symbols.old ≤ max_symbols }
    ensures reads { Reads result symbols.new (symbol_in rec symbols.old text.now) }
    ensures within { IfOk result (λ number. (1 ≤ number) × (number ≤ max_symbols)) }
    ensures few { length symbols.new ≤ max_symbols }
{
    if let Some(number) = symbols.known(text) {
        return Ok(number);
    }
    let field = Field::Symbol;
    if !is_symbol(text) {
        return Err(ReadError::Field { rec, field });
    }
    match symbols.add(alloc, text)? {
        None => Err(ReadError::Range { rec, field }),
        Some(number) => Ok(number),
    }
}

// The row of a trade.
fn trade_row(time: u64, account: u64, symbol: u64, side: Side, qty: u64, cents: u64) -> Row
    requires time { time ≤ max_seconds }
    requires account { (1 ≤ account) × (account ≤ max_account) }
    requires symbol { (1 ≤ symbol) × (symbol ≤ max_symbols) }
    requires qty { (1 ≤ qty) × (qty ≤ max_qty) }
    requires cents { cents ≤ max_cents }
    ensures row { result ≡ trade_row time account symbol side qty cents }
    ensures within { IsInputRow result }
{
    Row {
        time: time as i64,
        account: account as i64,
        symbol: symbol as i64,
        qty: signed(side, qty),
        value: signed(side, qty * cents),
    }
}

impl RecordForm<Field> for TradeForm {
    ghost use Rattle.std.specs.Prelude.{◌≤◌, length};
    ghost use Rattle.trade_text.specs.Limits.{max_symbols};
    ghost use Rattle.trade_text.specs.Trades.{trade_in};
    ghost use Rattle.trade_text.specs.TradesView.{IsInputRow};

    ghost row_in = { trade_in };

    ghost stands = { λ form. length form.symbols ≤ max_symbols };

    ghost within = { IsInputRow };

    // The symbol of the record becomes known.
    #[tactic(auto, unfolding(crate::specs::Trades::trade_in))]
    fn row(&mut self, alloc: Global, rec: u64, fields: &ByteRecord) -> Result<Row, TradeError> {
        if fields.len() != self.columns.count {
            return Err(ReadError::Row { rec });
        }
        let time = located(
            rec,
            Field::Time,
            time_of(text_at(fields, self.columns.time)),
        )?;
        let account = located(
            rec,
            Field::Account,
            account_of(text_at(fields, self.columns.account)),
        )?;
        let text = text_at(fields, self.columns.symbol);
        let symbol = symbol_in(alloc, rec, &mut self.symbols, text)?;
        let side = located(
            rec,
            Field::Side,
            side_of(text_at(fields, self.columns.side)),
        )?;
        let qty = located(rec, Field::Qty, qty_of(text_at(fields, self.columns.qty)))?;
        let cents = located(
            rec,
            Field::Price,
            price_of(text_at(fields, self.columns.price)),
        )?;
        Ok(trade_row(time, account, symbol, side, qty, cents))
    }
}

/// Reads the trades of a text: the header, whose names stand in any order and case, and then a trade
/// a record. A byte order mark at the front is dropped, once. Where something is refused, the answer is
/// the first such thing, record by record, and in a record in the order of [`Field`].
#[tactic(auto, unfolding(crate::specs::Trades::trades_of))]
pub fn read_trades(alloc: Global, bytes: &[u8]) -> Result<Trades, TradeError>
    ensures answers { IfOk result (λ trades. trades_of bytes.now ≡ Ok trades) }
    ensures unmerged { IfOk result (λ trades. trades.merged ≡ false) }

    // Want of memory alone is no refusal of the text.
    ensures refused { IfErr result (λ error. IsRefusalOf error (trades_of bytes.now)) }
{
    let mut fields = ByteRecord::new(alloc);
    let mut reader = open_file(alloc, bytes, &mut fields)?;
    let columns = trade_columns(&fields)?;
    let symbols = Symbols::new(alloc);
    let mut form = TradeForm { columns, symbols };
    let rows = rows_of(alloc, &mut form, &mut reader, &mut fields, MAX_INPUTS)?;
    Ok(only_trades(alloc, rows, form.symbols))
}
