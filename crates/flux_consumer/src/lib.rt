//! What a node takes from its in-edges: their merge, and what was reported of it.
//!
//! A [`Consumer`] drops what was taken before and what comes past a gap, gives the items of its
//! edges in their one order, and knows of which edge a higher mark is to be reported. It stands on
//! merge_order.
#![tactic(auto)]

mod consumer;

pub use consumer::Consumer;
