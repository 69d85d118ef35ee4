// The controller of a group: what it is, and what can be read of it.
ghost use Rattle.pair_machine.specs.Flow.{Flow};
ghost use Rattle.std.specs.Prelude.{◌≡◌, ◌<◌, ◌≤◌, ◌↔◌, IfOk, IfSome, ℕ, IsNone, length, replicate, slice_index};
ghost use Rattle.trio_nodes.specs.ControllerPackets.{StandsFor};
ghost use Rattle.trio_nodes.specs.ControllerView.{IsUp, node_of, numbers_of, opening, unheard, watched_in};
ghost use Rattle.trio_machine.specs.Machine.{new_controller, new_node};
ghost use Rattle.trio_machine.specs.Numbers.{group_size};

mod acknowledgement;
mod hearing;
mod step;
mod watched;

use crate::GROUP_SIZE;
use std::alloc::Global;
use std::marker::Model;
use trio_machine::TrioNode;
use tuple_edge::OutOfMemory;
use watched::TrioWatched;

/// The controller of the group of three that runs one partition of one stage. Stages count from 1,
/// partitions, replicas, and in-edges by the partition that they come from, from 0. Numbers of items
/// and terms are below 2^62.
#[derive(Drop)]
pub struct TrioControl {
    stage: u32,
    part: u32,
    watched: Vec<TrioWatched>,
    acked: Vec<u64>,
    term: u64,
    leader: Option<u32>,
}

impl Model for TrioControl {
    ghost use Rattle.trio_nodes.specs.ControllerView.{ControllerView, IsControl};

    ghost Value = { ControllerView };

    ghost view = { λ c. record {
      stage = c.stage;
      part = c.part;
      watched = c.watched.items;
      acked = c.acked.items;
      term = c.term;
      leader = c.leader;
    } };

    ghost invariant = { λ c. IsControl c.stage c.watched.items c.acked.items c.leader };
}

// What is known of the three replicas as a group with so many in-edges opens.
fn new_watched(alloc: Global, edges: usize) -> Result<Vec<TrioWatched>, OutOfMemory>
    ensures { IfOk result (λ watched. watched.items ≡ replicate group_size (unheard edges)) }
{
    let mut watched = Vec::with_capacity(alloc, GROUP_SIZE as usize)?;
    for _copy in 0..GROUP_SIZE {
        watched.push_reserved(TrioWatched::new(alloc, edges)?);
    }
    Ok(watched)
}

impl TrioControl {
    /// The controller of a group with so many in-edges, as it opens: all three replicas are up, replica 0
    /// leads in term 1, and nothing is reported or acknowledged.
    pub fn new(alloc: Global, stage: u32, part: u32, edges: u32) -> Result<TrioControl, OutOfMemory>
        requires stage { 1 ≤ stage }
        requires some { 1 ≤ edges }
        requires few { edges ≤ 8 }
        ensures opening { IfOk result (λ c. c ≡ opening stage part edges) }
        ensures numbers { IfOk result (λ c. numbers_of c ≡ new_controller) }
        // In each plan where the stage has so many in-edges it stands for the node as the machine opens.
        ensures stands { IfOk result (λ c. (f : Flow) → edges ≡ f.sources stage → StandsFor f c (new_node (node_of c))) }
    {
        let watched = new_watched(alloc, edges as usize)?;
        let acked = vec![in alloc; 0u64; edges as usize]?;
        Ok(TrioControl {
            stage,
            part,
            watched,
            acked,
            term: 1,
            leader: Some(0),
        })
    }

    /// Its name in the plan.
    pub fn id(&self) -> TrioNode
        ensures { result ≡ node_of self.now }
    {
        TrioNode::Control {
            stage: self.stage,
            part: self.part,
        }
    }

    /// Whether a replica is held up.
    pub fn up(&self, copy: u32) -> bool
        requires { copy < group_size }
        ensures { result ≡ (watched_in self.now.watched copy).up }
    {
        let replica = &self.watched[copy as usize];
        replica.up
    }

    /// Up to which number a replica is known to have taken an in-edge.
    pub fn report(&self, copy: u32, edge: u32) -> u64
        requires copy { copy < group_size }
        requires edge { edge < length self.now.acked }
        ensures { result ≡ slice_index (watched_in self.now.watched copy).reports edge }
    {
        let replica = &self.watched[copy as usize];
        replica.reports[edge as usize]
    }

    /// Up to which number an in-edge is acknowledged.
    pub fn acked(&self, edge: u32) -> u64
        requires { edge < length self.now.acked }
        ensures { result ≡ slice_index self.now.acked edge }
    {
        self.acked[edge as usize]
    }

    /// The term: how often a leader was named, with the first one.
    pub fn term(&self) -> u64
        ensures { result ≡ self.now.term }
    {
        self.term
    }

    /// The replica that leads, which is up. None exactly where no replica is up.
    pub fn leader(&self) -> Option<u32>
        ensures value { result ≡ self.now.leader }
        ensures up { IfSome result (IsUp self.now.watched) }
        ensures none { IsNone result ↔ ((c : ℕ) → IsUp self.now.watched c → ⊥) }
    {
        self.leader
    }
}
