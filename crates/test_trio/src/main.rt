//! Tries every order of events of a small run: two trades through one stage of one partition, with its group of three.
//!
//! `test_trio DEPTH KILLS` goes breadth first over all states that at most DEPTH events reach from the opening, of which at
//! most KILLS kill a replica. A packet may be taken at any time, out of order and again; nothing is pulled but by a drain.
//! In each state it checks what `checks` says, and prints how many states there are. Where a state differs it prints the
//! events that lead there, as a text that `flux trio` reads, and ends with status 1. The numbers of the stored run were
//! worked out by a program in another language.
#![tactic(auto)]

mod checks;
mod events;
mod nodes;
mod numbers;
mod orders;
mod story;

use crate::orders::GroupOrders;
use std::process::ExitCode;
use test_kit::walk;

fn main(rt: HostRuntime) -> ExitCode {
    walk(&rt, "test_trio", GroupOrders::new(rt.alloc()))
}
