//! What is said of the bytes of an input that is refused: where in the file, the word that stands there, and what
//! may stand there.
//!
//! It promises that nothing is said exactly where the reading of the bytes accepts them, and else the line that is
//! defined by the first fault of that reading and by the bytes: the line's number is the fault's, or for records that
//! in which the fault's record begins; the column is where the word begins that is shown; and what may stand there is
//! what the word's place in the grammar takes. It stands on `plan_reader`, `failure_script` and `trade_text` for the
//! readings and their faults, on `record_faults` for the faults of all records, on `text_words` for lines and words, and on
//! csv for what a record is.
#![tactic(auto)]

mod all;
mod files;
mod header;
mod law;
mod lines;
mod names;
mod place;
mod plans;
mod record_lines;
mod records;
mod scripts;
mod shown;
mod spot;
mod told;

pub use all::{all_cash_faults, all_trades_faults};
pub use files::{cash_fault, trade_form, trade_range, trades_fault};
pub use law::{columns_are_of_words, each_word_leads_on, places_are_the_grammar, ranges_are_read};
pub use plans::plan_fault;
pub use record_lines::{RecordLines, record_line};
pub use scripts::script_fault;
pub use shown::push_shown;
