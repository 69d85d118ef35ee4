//! Why each record of a file of trades or of cash movements is refused, if it is.
//!
//! `trade_faults` and `cash_faults` judge one record after the other, each behind those before it that are accepted; the
//! first fault is the one by which `read_trades` and `read_cash` refuse the file. `push_row` writes a record as
//! csv writes it, and a law says that the header and the accepted records make a file of just their rows. It stands on
//! `trade_text` for what a record says, and on csv for what a record is.
#![tactic(auto)]

mod cash;
mod each;
mod header;
mod law;
mod symbols;
mod trades;
mod written;

pub use cash::cash_faults;
pub use header::place_in;
pub use law::{accepted_are_accepted, first_is_the_refusal};
pub use trades::trade_faults;
pub use written::{guarded, push_row};
