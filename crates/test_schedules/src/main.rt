//! Tries every order of events of a small run: two trades through one stage of one partition, with its two replicas.
//!
//! `test_schedules DEPTH FAILURES` goes breadth first over all states that at most DEPTH events reach from the opening, of
//! which at most FAILURES kill a replica, ask for its stop or ask for its partner. A packet may be taken at any time, out
//! of order and again; nothing is pulled but by a drain. In each state it checks what `checks` says, and prints how many
//! states there are. Where a state differs it prints the events that lead there, as a text that `flux replay` reads, and
//! ends with status 1. The numbers of the stored run were worked out by a program in another language.
#![tactic(auto)]

mod checks;
mod nodes;
mod offers;
mod orders;
mod story;

use crate::orders::PairOrders;
use std::process::ExitCode;
use test_kit::walk;

fn main(rt: HostRuntime) -> ExitCode {
    walk(&rt, "test_schedules", PairOrders::new(rt.alloc()))
}
