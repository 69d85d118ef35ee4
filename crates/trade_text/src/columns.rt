// The header, and where each field stands in a record.
ghost use Rattle.std.specs.Prelude.{◌≡◌, ◌<◌, [], length, slice_index_or};
ghost use Rattle.csv.specs.Records.{fields_of};
ghost use Rattle.trade_text.specs.Columns.{cash_columns, is_column_of, is_name_of, place_of, trade_columns};

use crate::fields::{is_word, trimmed};
use crate::{CashError, CashField, Field, FileField, ReadError, TradeError};
use csv::ByteRecord;

/// How many fields a record has, and where the fields of a trade stand, from 0.
#[derive(Clone, Copy)]
pub struct TradeColumns {
    pub count: usize,
    pub time: usize,
    pub account: usize,
    pub symbol: usize,
    pub side: usize,
    pub qty: usize,
    pub price: usize,
}

impl TradeColumns {
    /// Those of no header.
    pub fn none() -> TradeColumns {
        TradeColumns {
            count: 0,
            time: 0,
            account: 0,
            symbol: 0,
            side: 0,
            qty: 0,
            price: 0,
        }
    }
}

// How many fields a record has, and where the fields of a cash movement stand, from 0.
#[derive(Clone, Copy)]
pub(crate) struct CashColumns {
    pub(crate) count: usize,
    pub(crate) time: usize,
    pub(crate) account: usize,
    pub(crate) amount: usize,
}

// Whether a text is a name of a field.
fn is_name_of<F: FileField>(field: F, text: &[u8]) -> bool
    ensures { result ≡ is_name_of F.kind field text.now }
{
    is_word(text, field.name().as_bytes()) || is_word(text, field.synonym().as_bytes())
}

/// Whether the column at a place of a header is that of a field.
pub fn is_column_at<F: FileField>(field: F, header: &ByteRecord, place: usize) -> bool
    requires { place < length (fields_of header.now) }
    ensures { result ≡ is_column_of F.kind field (slice_index_or (fields_of header.now) place []) }
{
    match header.get(place) {
        None => false,
        Some(text) => is_name_of(field, trimmed(text)),
    }
}

// The place of a field, which the header names exactly once.
fn place_of<F: FileField>(field: F, header: &ByteRecord) -> Result<usize, ReadError<F>>
    ensures { result ≡ place_of F.kind field (fields_of header.now) }
{
    let mut found = None;
    for place in 0..header.len() {
        if !is_column_at(field, header, place) {
            continue;
        }
        if found.is_some() {
            return Err(ReadError::Header);
        }
        found = Some(place);
    }
    match found {
        None => Err(ReadError::Header),
        Some(place) => Ok(place),
    }
}

/// The places of the fields of trades, each of which the header names exactly once.
#[tactic(auto, unfolding(crate::specs::Columns::trade_columns))]
pub fn trade_columns(header: &ByteRecord) -> Result<TradeColumns, TradeError>
    ensures { result ≡ trade_columns (fields_of header.now) }
{
    Ok(TradeColumns {
        count: header.len(),
        time: place_of(Field::Time, header)?,
        account: place_of(Field::Account, header)?,
        symbol: place_of(Field::Symbol, header)?,
        side: place_of(Field::Side, header)?,
        qty: place_of(Field::Qty, header)?,
        price: place_of(Field::Price, header)?,
    })
}

// The places of the fields of cash movements.
#[tactic(auto, unfolding(crate::specs::Columns::cash_columns))]
pub(crate) fn cash_columns(header: &ByteRecord) -> Result<CashColumns, CashError>
    ensures { result ≡ cash_columns (fields_of header.now) }
{
    Ok(CashColumns {
        count: header.len(),
        time: place_of(CashField::Time, header)?,
        account: place_of(CashField::Account, header)?,
        amount: place_of(CashField::Amount, header)?,
    })
}
