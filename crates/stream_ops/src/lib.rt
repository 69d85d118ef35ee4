//! The operators of a stage: what each answers to the items of its partition.
//!
//! An operator is told what to do by an [`OpSpec`], and an [`OpState`] keeps what its answers need.
//! What it answers is defined on the list of the items before, never on that state: each step
//! appends exactly the answer, in the order of the items. It stands on tuple_edge, on op_spec for
//! what an operator is told, on circular_buffer for the last rows of a key, and on keyed_store for
//! what is kept by key.
//!
//! An operator is added in these places. Its settings: [`OpSpec`], and their limits in specs/Spec,
//! both of op_spec. What it answers, on the rows before: specs/Answers; what it keeps of a key, as
//! entries: specs/Entries. The code: a variant of `Operator` with a store by key, a line in each `match`
//! there, and how it takes a row in src/taking. The link between them: a line for it in each
//! definition of specs/View, a lemma on what is kept with one row more, and a case in
//! proofs/Standing, PutBack, After and Rising. `OpState` stays as it is.
//!
//! Crates above need cases too: plan_reader, whose plans name the operators, and bucket_move, which
//! says of each whether what it keeps can be split by the column that routes its rows. So do lemmas
//! in proofs/ of catch_up, evaluation, move_command and replica_node.
#![tactic(auto)]

mod entries;
mod joined;
mod kept;
mod operator;
mod state;
mod sums;
mod taking;
mod window;

pub use op_spec::{
    By, Compare, MAX_JOIN_ROWS, MAX_LAST_ROWS, MAX_TIME_SECONDS, MAX_WINDOW_SECONDS, OpSpec,
    is_timely,
};
// Contracts see what an operator keeps.
#[doc(hidden)]
pub use operator::Operator;
pub use state::OpState;
pub use sums::Sums;
pub use window::OpenWindow;
