// How a replica gives its state to its restarted partner, and how it gathers its partner's.
ghost use Rattle.catch_up.specs.NewcomerView.{NewcomerView};
ghost use Rattle.pair_machine.specs.Receivers.{appended};
ghost use Rattle.replica_node.specs.Admitted.{IsEntryHere};
ghost use Rattle.replica_node.specs.Phases.{begin_taken, chunk_taken, inc_in, serve_taken, serving, wants_by, wants_in, wants_of};
ghost use Rattle.replica_node.specs.ReplicaView.{partition_of};
ghost use Rattle.replica_node.specs.Rules.{HasCaughtUp, IsEnded, IsNewTarget};
ghost use Rattle.replica_node.specs.Takers.{HasSources};
ghost use Rattle.replica_node.specs.declared.phase.Phase.TheVariants as phase;
ghost use Rattle.catch_up.specs.declared.newcomer.Took.{Took};
ghost use Rattle.std.specs.Prelude.{◌≡◌, ◌<◌, ◌≤◌, ◌+◌, ◌++◌, IfOk, IfSome, IfNone, None, OnErr, OnOk, length};
ghost use Rattle.op_spec.specs.Spec.{IsSpec};
ghost use Rattle.tuple_edge.specs.declared.node.NodeId.TheVariants as node;

use crate::phase::{Phase, Running};
use crate::role::Role;
use catch_up::{CaughtUp, Newcomer, Took};
use state_mover::Mover;
use std::alloc::Global;
use tuple_edge::{Body, EdgeId, Entry, NUMBER_LIMIT, NodeId, OutOfMemory, Outbox, Which};

impl Running {
    // Begins a move for a target: from now on what the operator kept at this moment is watched.
    fn serve(&mut self, alloc: Global, target: u64) -> Result<(), OutOfMemory>
        ensures served { OnOk result (self.new ≡ serving target self.old) }
        ensures unchanged { OnErr result (self.new ≡ self.old) }
    {
        let entries = self.state.entry_count();
        if entries >= NUMBER_LIMIT {
            // No memory holds that many.
            return Err(OutOfMemory);
        }
        let mover = Mover::begin(alloc, target, &self.consumer, &self.producer, entries)?;
        self.state.watch();
        self.mover = Some(mover);
        self.served = target;
        Ok(())
    }

    // What runs once it has caught up.
    fn caught_up(inc: u64, caught: CaughtUp) -> Running
        ensures inc { result.inc ≡ inc }
        ensures consumer { result.consumer ≡ caught.consumer }
        ensures producer { result.producer ≡ caught.producer }
        ensures state { result.state ≡ caught.state }
        ensures served { result.served ≡ 0 }
        ensures moves { result.mover ≡ None }
    {
        let CaughtUp {
            consumer,
            producer,
            state,
        } = caught;
        Running {
            inc,
            consumer,
            producer,
            state,
            served: 0,
            mover: None,
        }
    }
}

impl Phase {
    // Serves the partner, where it is told so in its own incarnation, for a later target than before.
    pub(crate) fn take_serve(
        &mut self,
        alloc: Global,
        inc: u64,
        target: u64,
    ) -> Result<(), OutOfMemory>
        ensures taken { OnOk result (self.new ≡ serve_taken inc target self.old) }
        ensures unchanged { OnErr result (self.new ≡ self.old) }
        ensures wants { OnErr result (IsNewTarget inc target self.old) }
    {
        match self {
            Phase::Running(running) => {
                if inc == running.inc && target > running.served {
                    running.serve(alloc, target)?;
                }
                Ok(())
            }
            Phase::Gathering(_) | Phase::Gone { .. } => Ok(()),
        }
    }

    // Begins anew, in a later incarnation.
    pub(crate) fn take_begin(
        &mut self,
        alloc: Global,
        sources: u32,
        inc: u64,
    ) -> Result<(), OutOfMemory>
        ensures taken { OnOk result (self.new ≡ begin_taken sources inc self.old) }
        ensures unchanged { OnErr result (self.new ≡ self.old) }
        ensures wants { OnErr result (inc_in self.old < inc) }
    {
        if inc > self.inc() {
            *self = Phase::Gathering(Newcomer::begin(alloc, inc, sources)?);
        }
        Ok(())
    }

    // Takes a chunk. One that tells a mark makes it want the items above it.
    pub(crate) fn take_chunk(
        &mut self,
        role: &Role,
        inc: u64,
        number: u64,
        entry: Entry,
        out: &mut Outbox,
    ) -> Result<(), OutOfMemory>
        requires stage { 1 ≤ role.now.stage }
        requires entry { IsEntryHere role.now entry }
        ensures taken { OnOk result (self.new ≡ chunk_taken inc number entry self.old) }
        ensures packets { OnOk result (out.new.packets ≡ out.old.packets ++ wants_in (partition_of role.now) inc number entry self.old) }
        ensures unchanged { OnErr result ((self.new ≡ self.old) × (out.new.packets ≡ out.old.packets)) }
    {
        match self {
            Phase::Gathering(newcomer) => {
                out.reserve(2)?;
                let took = newcomer.chunk(inc, number, entry)?;
                want_by(role, took, entry, out);
                Ok(())
            }
            Phase::Running(_) | Phase::Gone { .. } => Ok(()),
        }
    }

    // Ends the gathering, where the end is of its incarnation and counts what was taken.
    pub(crate) fn take_end(
        &mut self,
        role: &Role,
        inc: u64,
        count: u64,
        out: &mut Outbox,
    ) -> Result<(), OutOfMemory>
        requires op { IsSpec role.now.op }
        requires sources { HasSources self.old }
        ensures ended { OnOk result (IsEnded role.now inc count self.old self.new (appended out.old.packets out.new.packets)) }
        ensures packets { out.new.packets ≡ out.old.packets ++ appended out.old.packets out.new.packets }
        ensures unchanged { OnErr result ((self.new ≡ self.old) × (out.new.packets ≡ out.old.packets)) }
    {
        out.reserve(1)?;
        if let Some(running) = self.end_gathering(role, inc, count)? {
            out.push(role.controller(), Body::Caught { inc: running.inc });
            *self = Phase::Running(running);
        }
        Ok(())
    }

    // What runs once the gathering has ended; None where it goes on, or nothing gathers.
    fn end_gathering(
        &mut self,
        role: &Role,
        inc: u64,
        count: u64,
    ) -> Result<Option<Running>, OutOfMemory>
        requires op { IsSpec role.now.op }
        requires sources { HasSources self.old }
        ensures some { IfOk result (λ o. IfSome o (λ r. (g : NewcomerView) × (self.old ≡ phase.Gathering g) × (inc ≡ g.inc) × (count ≡ length g.taken) × HasCaughtUp role.now g r)) }
        ensures none { IfOk result (λ o. IfNone o ((self.new ≡ self.old) × ((g : NewcomerView) → self.old ≡ phase.Gathering g → (inc ≡ g.inc) × (count ≡ length g.taken) → ⊥))) }
        ensures unchanged { OnErr result (self.new ≡ self.old) }
    {
        match self {
            Phase::Gathering(newcomer) => {
                let own = newcomer.inc();
                let ended = newcomer.end(
                    inc,
                    count,
                    role.op,
                    role.stage,
                    role.part,
                    role.copies(),
                )?;
                match ended {
                    None => Ok(None),
                    Some(caught) => Ok(Some(Running::caught_up(own, caught))),
                }
            }
            Phase::Running(_) | Phase::Gone { .. } => Ok(None),
        }
    }
}

// Wants the items of an in-edge above the mark that an entry tells, where the entry was taken.
fn want_by(role: &Role, took: Took, entry: Entry, out: &mut Outbox)
    requires stage { 1 ≤ role.now.stage }
    requires entry { IsEntryHere role.now entry }
    requires room { 2 ≤ out.old.spare }
    ensures { out.new.packets ≡ out.old.packets ++ wants_by (partition_of role.now) took entry }
{
    match (took, entry) {
        (Took::Taken, Entry::Mark { edge, upto }) => want_from(role, edge, upto + 1, out),
        _ => {}
    }
}

// Wants the items of an in-edge from a number on, of both producers of the edge, or of ingress.
fn want_from(role: &Role, edge: u32, number: u64, out: &mut Outbox)
    requires stage { 1 ≤ role.now.stage }
    requires room { 2 ≤ out.old.spare }
    ensures { out.new.packets ≡ out.old.packets ++ wants_of (partition_of role.now) edge number }
{
    let stage = role.stage - 1;
    let body = Body::Want {
        edge: EdgeId {
            stage,
            from: edge,
            to: role.part,
        },
        from: number,
    };
    if stage == 0 {
        out.push(NodeId::Ingress, body);
    } else {
        out.push(replica(stage, edge, Which::A), body);
        out.push(replica(stage, edge, Which::B), body);
    }
}

// A replica of a partition.
pub(crate) fn replica(stage: u32, part: u32, which: Which) -> NodeId
    ensures { result ≡ node.Replica stage part which }
{
    NodeId::Replica { stage, part, which }
}
