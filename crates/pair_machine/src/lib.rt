//! What a plan does with trades, as definitions and their laws, in two parts.
//!
//! The dataflow as a function of the trades: what ingress sends, the edges between the stages, the
//! merged list of each partition, and the output. No replica, buffer or failure is in it. The crate
//! promises that the edges of every plan have the form that a merge asks for and carry the same
//! marks, that they are short, and that times stay within their limits.
//!
//! And the machine of pairs, on numbers: what each node does at each event, where each partition runs
//! as two replicas and a controller. The crate promises that every step keeps the machine sound, so
//! that the buffers always hold what takeover owes; that no pair is lost under a safe script; that
//! the joint course of true courses is legal, and within a script where each node's own history is;
//! that lists of events go on; and that the drain is whole where no pair is lost.
//!
//! It has no code of its own: each law is the contract of a function that does nothing. It stands on
//! merge_order, stream_ops and plan_reader.
#![tactic(auto)]

mod count_law;
mod drain_law;
mod journal_law;
mod law;
mod machine_law;
mod name_law;
mod order;
mod stands;
mod worked;

pub use count_law::{
    all_is_made, edges_are_merged_in_order, edges_are_used_up, ended_merge_is_whole,
    moves_have_their_size, output_comes_in_order, plans_are_flows,
};
pub use drain_law::{
    drain_events_keep_owed, drain_is_whole, drains_are_free, lost_pairs_are_found,
    runs_are_drained, safe_runs_are_drained, sound_states_are_drainable,
};
pub use journal_law::{
    fronts_stay_within, journals_go_on, lists_go_on, nodes_decide, steps_are_at_one_node,
};
pub use law::{
    each_part_sends, edges_are_short, edges_have_the_form, marks_are_shared,
    sources_merge_in_order, stages_answer, times_stay,
};
pub use machine_law::{
    courses_are_legal, logs_are_legal, logs_are_there, logs_are_within, no_pair_is_lost,
    nodes_stand, numbers_stay_small, sound_states_give_what_is_asked, sound_states_owe,
    steps_keep_sound, takeover_is_owed, the_opening_is_sound,
};
pub use name_law::{links_are_the_plans, links_carry_messages, nodes_are_the_plans};
pub use order::Order;
pub use stands::StandsForNode;
pub use worked::worked_rows;
