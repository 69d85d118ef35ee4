//! The nodes of a dataflow whose partitions run as groups of three replicas.
//!
//! A [`TrioReplica`] takes, merges, answers and sends until it is killed; nobody brings it back. A
//! [`TrioControl`] hears its three replicas, names the lowest one that is up where the leader fails, and
//! acknowledges of each in-edge what every replica that is up has reported. [`TrioIngress`] makes the rows
//! into items, and [`TrioEgress`] emits the output.
//!
//! The crate promises that each event of a node is its step of the machine of `trio_machine`. It stands on
//! flux_producer and flux_consumer for the edges, on partition_step for the merges, and on ingress_egress
//! for what the nodes at the ends have in common with those of pairs.
#![tactic(auto)]

mod controller;
mod egress;
mod group;
mod ingress;
mod outbox;
mod replica;
mod role;
mod running;

pub use controller::TrioControl;
pub use egress::TrioEgress;
pub use group::GROUP_SIZE;
pub use ingress::TrioIngress;
pub use outbox::{MOST_PACKETS, TrioOutbox};
pub use replica::TrioReplica;
// Contracts see what a replica is made of.
#[doc(hidden)]
pub use role::TrioRole;
#[doc(hidden)]
pub use running::TrioRunning;
pub use trio_machine::{TrioBody, TrioNode};
