// The controller: what it is, and what can be read of it.
ghost use Rattle.pair_control.specs.Admitted.{AreReportsSmall, AreSmall};
ghost use Rattle.pair_control.specs.ControllerView.{numbers_of, partition_at, partition_of, watched_of};
ghost use Rattle.pair_control.specs.StandsFor.{StandsFor, node_of};
ghost use Rattle.pair_machine.specs.Controllers.{counts};
ghost use Rattle.pair_machine.specs.Flow.{Flow};
ghost use Rattle.pair_machine.specs.Machine.{new_controller, new_node};
ghost use Rattle.pair_machine.specs.Numbers.{control_at};
ghost use Rattle.std.specs.Prelude.{◌≡◌, ◌≢◌, ◌<◌, ◌≤◌, ◌↔◌, IfOk, IfSome, IsNone, IsTrue, length, slice_index};
ghost use Rattle.tuple_edge.specs.declared.status.Status.TheVariants as status;

mod admits;
mod hearing;
mod step;

use crate::watched::{Watched, zeros};
use std::alloc::Global;
use std::marker::Model;
use tuple_edge::{NodeId, OutOfMemory, Status, Which};

/// The controller of the pair that runs one partition of one stage. Stages count from 1, partitions,
/// and in-edges by the partition that they come from, from 0. Numbers of items, incarnations and terms
/// are below 2^62.
#[derive(Drop)]
pub struct PairControl {
    stage: u32,
    part: u32,
    a: Watched,
    b: Watched,
    acked: Vec<u64>,
    term: u64,
    leader: Option<Which>,
    // Only of the in-edges from the first number up to below the end more may be reported than is
    // acknowledged. A report adds its own edge to them, a replica that goes down adds all.
    first_due: usize,
    end_due: usize,
}

impl Model for PairControl {
    ghost use Rattle.pair_control.specs.ControllerView.{ControllerView, IsPairControl};

    ghost Value = { ControllerView };

    ghost view = { λ c. record {
      stage = c.stage;
      part = c.part;
      a = c.a;
      b = c.b;
      acked = c.acked.items;
      term = c.term;
      leader = c.leader;
    } };

    ghost invariant = { λ c. IsPairControl c.stage c.a c.b c.acked.items c.leader c.first_due c.end_due };
}

impl PairControl {
    /// The controller of a pair with so many in-edges, as it opens: both replicas are up in their first
    /// incarnation, replica A leads in term 1, and nothing is reported, acknowledged or wanted.
    #[tactic(auto, using(crate::proofs::Due::nothing_yet))]
    pub fn new(alloc: Global, stage: u32, part: u32, edges: u32) -> Result<PairControl, OutOfMemory>
        requires stage { 1 ≤ stage }
        requires some { 1 ≤ edges }
        requires few { edges ≤ 8 }
        ensures opening { IfOk result (λ c. numbers_of c ≡ new_controller) }
        ensures partition { IfOk result (λ c. partition_of c ≡ partition_at stage part) }
        ensures edges { IfOk result (λ c. length c.acked ≡ edges) }
        ensures small { IfOk result (λ c. AreSmall c × AreReportsSmall c) }
        // In each plan where the stage has so many in-edges it stands for the node as the machine opens.
        ensures stands { IfOk result (λ c. (f : Flow) → edges ≡ f.sources stage
            → StandsFor f c (new_node (control_at (partition_at stage part)))) }
    {
        let a = Watched::new(alloc, edges as usize)?;
        let b = Watched::new(alloc, edges as usize)?;
        let acked = zeros(alloc, edges as usize)?;
        Ok(PairControl {
            stage,
            part,
            a,
            b,
            acked,
            term: 1,
            leader: Some(Which::A),
            first_due: edges as usize,
            end_due: 0,
        })
    }

    /// Its name in the plan.
    pub fn id(&self) -> NodeId
        ensures { result ≡ node_of self.now }
    {
        let (stage, part) = (self.stage, self.part);
        NodeId::Control { stage, part }
    }

    /// Whether a replica is up, catching up or down.
    pub fn status(&self, which: Which) -> Status
        ensures { result ≡ (watched_of self.now which).status }
    {
        self.watched(which).status
    }

    /// A replica's incarnation, from 1: the one that it runs in, or is to catch up in.
    pub fn inc(&self, which: Which) -> u64
        ensures { result ≡ (watched_of self.now which).inc }
    {
        self.watched(which).inc
    }

    /// Whether a replica in this incarnation is counted: it isn't down, and its incarnation is this one.
    pub fn counts(&self, which: Which, inc: u64) -> bool
        ensures means { let w = watched_of self.now which in
            IsTrue result ↔ ((w.status ≢ status.Down) × (w.inc ≡ inc)) }
        ensures machine { result ≡ counts ((numbers_of self.now).watched which) inc }
    {
        self.watched(which).counts(inc)
    }

    /// Up to which number a replica is known to have taken an in-edge.
    pub fn report(&self, which: Which, edge: u32) -> u64
        requires { edge < length self.now.acked }
        ensures { result ≡ slice_index (watched_of self.now which).reports edge }
    {
        self.watched(which).reports[edge as usize]
    }

    /// Up to which number an in-edge is acknowledged.
    pub fn acked(&self, edge: u32) -> u64
        requires { edge < length self.now.acked }
        ensures { result ≡ slice_index self.now.acked edge }
    {
        self.acked[edge as usize]
    }

    /// The term: how often a leader was named, with the first one.
    pub fn term(&self) -> u64
        ensures { result ≡ self.now.term }
    {
        self.term
    }

    /// The replica that leads, which is up. None exactly where neither is.
    pub fn leader(&self) -> Option<Which>
        ensures value { result ≡ self.now.leader }
        ensures up { IfSome result (λ w. (watched_of self.now w).status ≡ status.Up) }
        ensures none { IsNone result ↔ ((self.now.a.status ≢ status.Up) × (self.now.b.status ≢ status.Up)) }
    {
        self.leader
    }

    /// Whether a replica is to be stopped as soon as its partner is up.
    pub fn stop_wanted(&self, which: Which) -> bool
        ensures { result ≡ (watched_of self.now which).stop }
    {
        self.watched(which).stop
    }

    /// Whether a replica is to be brought back as soon as it is down and its partner is up.
    pub fn back_wanted(&self, which: Which) -> bool
        ensures { result ≡ (watched_of self.now which).back }
    {
        self.watched(which).back
    }

    // What is known of a replica.
    fn watched(&self, which: Which) -> &Watched
        ensures watched { result.now ≡ watched_of self.now which }
        ensures edges { length result.now.reports ≡ length self.now.acked }
    {
        match which {
            Which::A => &self.a,
            Which::B => &self.b,
        }
    }
}
