//! A node of a run: its own part, the ends of its links with what waits there, its clock and its history.
//!
//! A [`Draft`] is a node as it opens, which gets its links one after another; then it is a [`Node`]. A node is turned. In one
//! call it takes arrivals, or does pieces of work, one after another, each an event of its own, and one method does whatever
//! else happens to it. Whatever packets came under which index, its history has rising clocks and is a true course within the
//! script, and it stands for the numbers after it; its name stays. With a node in one hand and the sender of one of its
//! in-links in the other, `settle` shows that what the node took there was sent to it.
//!
//! What a node is and does of itself is left to the trait `Acts` (`node_tasks`): no crate of the nodes stands below this one. It stands on
//! `flux_link` for the ends of links, on what keeps its history (`Keeps` of `event_log`), on `failure_script` for orders, and on the laws
//! of `pair_machine` for histories. Of `claim_board` it takes only that a node has a name there.
#![tactic(auto)]

mod draft;
mod draws;
mod fired;
mod firing;
mod in_end;
mod links;
mod named;
mod names;
mod node;
mod out_end;
mod outs;
mod pace;
mod part;
mod place_range;
mod receiving;
mod round;
mod sending;
mod settling;
mod tap;
mod turn;

pub use draft::Draft;
pub use draws::{Draws, HandsOn, Offers};
pub use fired::Fired;
pub use links::Links;
pub use names::RunNames;
pub use node::Node;
pub use part::Part;
pub use tap::{NoTap, RowTap, Tap};
