//! The claim board: values that float between threads with no lock.
//!
//! A [`Board`] has a value at each place 0, 1, .., a claim word for each place and one halt word. A
//! thread with a [`BoardSeat`] takes a value where its one compare and exchange finds the place
//! free, and gives it back by one store. So no value is out twice, in whatever order the threads'
//! steps come, and a board that is closed gives each value once, in order of places, with the name
//! that it had at the start. No call waits, and all but [`Board::new`] take no memory. That a claim
//! is ever won is not promised.
//!
//! It stands on atomic_table, and on tuple_edge for its want of memory, and knows nothing of what the
//! values are: [`Named`] says that a value has a name that stays. `specs/Rule.antt` has the rule that
//! every step keeps.
#![tactic(auto)]

mod board;
mod closing;
mod law;
mod making;
mod rule;
mod seat;
mod view;

pub use board::{Board, Taken};
pub use law::{all_joined_is_alone, each_is_once};
pub use seat::BoardSeat;
pub use view::Named;
