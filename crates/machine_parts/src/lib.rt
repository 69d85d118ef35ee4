//! The parts of what holds of the pair machine: which of them each part's keeping uses.
//!
//! A sound state has nine parts, and a step keeps each of them where it holds and those that it uses
//! hold. Under a safe script each step keeps four further facts of every pair, by which none is lost;
//! of soundness they use two parts. It has no code of its own: each law is the contract of a function
//! that does nothing. It stands on pair_machine.
#![tactic(auto)]

mod part_law;
mod safe_law;

pub use part_law::{
    acknowledging_is_kept, catching_is_kept, counting_is_kept, incarnations_are_kept,
    lengths_are_kept, links_are_kept, moves_are_kept, nodes_are_kept, reports_are_kept,
    sound_is_its_parts,
};
pub use safe_law::{
    opening_pairs_are_safe, safe_pairs_are_served, safe_pairs_hold_throughout, safe_pairs_stay_safe,
};
