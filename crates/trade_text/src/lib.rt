//! The texts at the two ends of a dataflow: the trades and the cash movements that come in, as people
//! export them from spreadsheets and brokers, and the rows that go out.
//!
//! It promises that `read_trades` and `read_cash` give exactly what a text says, or the first thing in
//! it that is refused, with the record and the field; that `merge_cash` puts the rows of both files in
//! the order of their times; and that `write_output` gives exactly the text of rows, with each symbol by
//! its name. What a record is decides the crate `csv`; the header and the fields are defined here. The
//! calls of which its reading is made serve the crates that tell of the faults of files too. It stands on
//! csv, on indexmap for the numbers of symbols, on itoa, and, for blanks and number words, on text_words.
#![tactic(auto)]

mod cash_file;
mod columns;
mod error;
mod fields;
mod files;
mod has_symbols;
mod law;
mod merging;
mod pieces;
mod record_parser;
mod record_reader;
mod record_state;
mod records;
mod stream_bytes;
mod symbols;
mod text;
mod trade_file;
mod trade_reader;
mod trades;

pub use cash_file::{Cash, read_cash};
pub use columns::{TradeColumns, is_column_at, trade_columns};
pub use error::{CashError, CashField, Field, FileField, ReadError, StreamError, TradeError};
pub use fields::{MAX_SYMBOL_BYTES, trimmed};
pub use files::{MAX_INPUT_BYTES, MAX_INPUTS, RecordForm, open_file, text_at};
pub use has_symbols::HasSymbols;
pub use law::{first_rows_begin_the_text, tells_as_file};
pub use pieces::{push_number, push_row, push_symbol, push_text};
pub use record_parser::RecordParser;
pub use record_state::{RecordAction, RecordState};
pub use records::{next_record, open_records, starts_with_mark, without_mark};
pub use symbols::{MAX_SYMBOLS, NO_SYMBOL, Symbols};
pub use text::{write_lines, write_output};
pub use trade_file::{TradeForm, read_trades};
pub use trade_reader::{TradeReader, refusal};
pub use trades::Trades;
