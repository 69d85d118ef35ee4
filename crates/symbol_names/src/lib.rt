//! The names of symbols, as they are learnt while trades come.
//!
//! Who reads trades sends on the name of each symbol the first time that it comes, as a `SymbolName`, which is a plain value. Who
//! writes rows keeps them as `SymbolNames`, in the order in which they came, which is that of their numbers. It promises that
//! rows whose symbols are known are written as under any list of names that goes on from those that were learnt. It stands on
//! trade_text for the lines of rows.
#![tactic(auto)]

mod symbol_name;
mod symbol_names;

pub use self::symbol_names::SymbolNames;
pub use symbol_name::SymbolName;
