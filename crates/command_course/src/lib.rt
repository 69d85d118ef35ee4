//! The course of a command over its files: how inputs are read one after the other, each checked before the next one.
//!
//! `input_at` reads a file of any kind (`Input`), and `feed_at` what all commands over a plan begin with: plan, trades
//! and cash movements. Their clauses say of any course how far it came, by which calls of the files, and why it
//! stopped. An `Answer` is what a command of `flux_look` comes to: a text, a status, and maybe a file that is saved
//! before. It stands on flux_outside for files, and on plan_reader and trade_text for the texts.
#![tactic(auto)]

mod answer;
mod feed;
mod input_files;
mod inputs;
mod stop;

pub use answer::{Answer, Ending, Saved};
pub use feed::{Feed, feed_at, movements_at, plan_at};
pub use input_files::{CashFile, PlanFile, TradesFile};
pub use inputs::{Input, input_at, refused};
pub use stop::Stop;
