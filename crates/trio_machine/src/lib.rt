//! Groups of three: the machine in which each partition of a plan runs as three replicas and a
//! controller, on numbers. All three start, a failure comes with notice, and none that is gone comes
//! back, so a group survives two failures.
//!
//! What each node does at each event is said by functions of its numbers; edges, producers, consumers
//! and all that a plan says of them are those of pair_machine. The crate promises that every step keeps
//! the machine sound, so that the buffers always hold what takeover owes; that a group is lost only
//! where all its replicas are gone; that what egress has merged is a front of the output; and that the
//! drain is whole where no group is lost.
//!
//! Beside the names of nodes, packets and events, and which node an event is at, it has no code: each law is
//! the contract of a function that does nothing. It stands on plan_reader and pair_machine.
#![tactic(auto)]

mod body;
mod drain_law;
mod event;
mod law;
mod node;
mod small_law;
mod worked;

pub use body::TrioBody;
pub use drain_law::{drain_is_whole, lost_groups_are_found};
pub use event::TrioEvent;
pub use law::{
    legal_lists_reach_sound_states, lists_go_on, lost_groups_are_gone, output_is_a_front,
    sound_states_give_what_is_asked, sound_states_owe, steps_keep_sound, the_opening_is_sound,
    trio_plans_are_flows,
};
pub use node::TrioNode;
pub use small_law::{numbers_fit, numbers_stay_small};
pub use worked::worked_rows;
