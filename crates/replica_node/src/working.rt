// The work of a replica that runs: it merges, gives its state to its partner, sends and reports.
ghost use Rattle.flux_consumer.specs.ConsumerView.{report_of, told_of};
ghost use Rattle.flux_producer.specs.Due.{due_of};
ghost use Rattle.merge_order.specs.MergeView.{least, mark_of};
ghost use Rattle.pair_machine.specs.Receivers.{appended};
ghost use Rattle.replica_node.specs.Admitted.{MayWorkIn};
ghost use Rattle.partition_step.specs.Answering.{HasParts};
ghost use Rattle.replica_node.specs.IsReplica.{IsRole, IsRunning};
ghost use Rattle.replica_node.specs.Rules.{IsSure, IsWaiting, Merges, Moves, MovesOrSends, NoneRose, Reports, SendsOrReports, Works, contents_in_phase, contents_in_running, packets_of_work, receiver_of, report_packet, tuples_of};
ghost use Rattle.replica_node.specs.Takers.{IsReadyToWork};
ghost use Rattle.replica_node.specs.declared.phase.Phase.TheVariants as phase;
ghost use Rattle.state_mover.specs.MoverView.{MoverView};
ghost use Rattle.std.specs.Prelude.{◌≡◌, ◌<◌, ◌≤◌, ◌+◌, ◌-◌, ◌++◌, ◌∷◌, [], ℕ, false, IfOk, IsTrue, None, OnErr, OnOk, Some, length};
ghost use Rattle.op_spec.specs.Times.{IsTimely};
ghost use Rattle.tuple_edge.specs.Limits.{edge_limit, number_limit};
ghost use Rattle.tuple_edge.specs.declared.event.Worked.TheVariants as worked;

use crate::moving::replica;
use crate::phase::{Phase, Running};
use crate::role::Role;
use flux_consumer::Consumer;
use flux_producer::Due;
use merge_order::Head;
use node_edges::which_at;
use partition_step::merge_next;
use state_mover::Moved;
use tuple_edge::{Body, EdgeId, Item, NodeId, OutOfMemory, Outbox, Row, Worked};

impl Phase {
    // Does the first piece of work that is due; only one that runs has any. It reports only where some mark rose by `rise`
    // since it was told.
    pub(crate) fn work(
        &mut self,
        role: &Role,
        rows: &mut Vec<Row>,
        rise: u64,
        out: &mut Outbox,
    ) -> Result<Worked, OutOfMemory>
        requires fits { MayWorkIn self.old }
        requires ready { IsReadyToWork role.now self.old }
        ensures works { IfOk result (λ did. IsSure rise did → Works role.now self.old self.new (appended out.old.packets out.new.packets) did) }
        ensures waits { IfOk result (λ did. did ≡ worked.Idle → IsWaiting rise self.old) }
        ensures risen { IfOk result (λ did. did ≡ worked.Did → IsWaiting rise self.old → ⊥) }
        ensures packets { out.new.packets ≡ out.old.packets ++ appended out.old.packets out.new.packets }
        ensures as_many { IfOk result (λ did. did ≡ worked.Did → length out.new.packets ≡ length out.old.packets + packets_of_work self.old) }
        ensures idle { IfOk result (λ did. did ≡ worked.Idle → (self.new ≡ self.old) × (out.new ≡ out.old)) }
        ensures unchanged { OnErr result ((contents_in_phase self.new ≡ contents_in_phase self.old) × (out.new.packets ≡ out.old.packets)) }
    {
        match self {
            Phase::Running(running) => running.work(role, rows, rise, out),
            Phase::Gathering(_) | Phase::Gone { .. } => Ok(Worked::Idle),
        }
    }
}

impl Running {
    // Does the first piece of work that is due.
    fn work(
        &mut self,
        role: &Role,
        rows: &mut Vec<Row>,
        rise: u64,
        out: &mut Outbox,
    ) -> Result<Worked, OutOfMemory>
        requires fits { MayWorkIn (phase.Running self.old) }
        requires ready { IsReadyToWork role.now (phase.Running self.old) }
        ensures works { IfOk result (λ did. IsSure rise did → Works role.now (phase.Running self.old) (phase.Running self.new) (appended out.old.packets out.new.packets) did) }
        ensures waits { IfOk result (λ did. did ≡ worked.Idle → IsWaiting rise (phase.Running self.old)) }
        ensures risen { IfOk result (λ did. did ≡ worked.Did → IsWaiting rise (phase.Running self.old) → ⊥) }
        ensures packets { out.new.packets ≡ out.old.packets ++ appended out.old.packets out.new.packets }
        ensures as_many { IfOk result (λ did. did ≡ worked.Did → length out.new.packets ≡ length out.old.packets + packets_of_work (phase.Running self.old)) }
        ensures idle { IfOk result (λ did. did ≡ worked.Idle → (self.new ≡ self.old) × (out.new ≡ out.old)) }
        ensures unchanged { OnErr result ((contents_in_running self.new ≡ contents_in_running self.old) × (out.new.packets ≡ out.old.packets)) }
    {
        match self.consumer.least() {
            None => self.move_or_send(role, rise, out),
            Some(head) => {
                self.merge(role, rows, head)?;
                Ok(Worked::Did)
            }
        }
    }

    // Merges the next item, which is that of this head, and produces what answers it.
    fn merge(&mut self, role: &Role, rows: &mut Vec<Row>, head: Head) -> Result<(), OutOfMemory>
        requires next { least self.old.consumer.merge.waiting ≡ Some head }
        requires fits { self.old.consumer.merge.count + 1 < number_limit }
        requires timely { IsTimely head.item }
        requires parts { HasParts role.now.next }
        requires running { IsRunning role.now self.old }
        ensures merges { OnOk result (Merges role.now head.item self.old self.new) }
        ensures unchanged { OnErr result (contents_in_running self.new ≡ contents_in_running self.old) }
    {
        merge_next(
            &mut self.consumer,
            &mut self.state,
            &mut self.producer,
            &role.task(),
            rows,
            head,
        )
    }

    // Gives the next part of its move, or sends, or reports.
    fn move_or_send(
        &mut self,
        role: &Role,
        rise: u64,
        out: &mut Outbox,
    ) -> Result<Worked, OutOfMemory>
        requires role { IsRole role.now }
        requires running { IsRunning role.now self.old }
        ensures moves { IfOk result (λ did. IsSure rise did → MovesOrSends role.now self.old self.old.mover (phase.Running self.new) (appended out.old.packets out.new.packets) did) }
        ensures waits { IfOk result (λ did. did ≡ worked.Idle → (self.old.mover ≡ None) × (due_of self.old.producer ≡ None) × NoneRose rise self.old.consumer) }
        ensures risen { IfOk result (λ did. did ≡ worked.Did → self.old.mover ≡ None → due_of self.old.producer ≡ None → NoneRose rise self.old.consumer → ⊥) }
        ensures packets { out.new.packets ≡ out.old.packets ++ appended out.old.packets out.new.packets }
        ensures one { IfOk result (λ did. did ≡ worked.Did → length out.new.packets ≡ length out.old.packets + 1) }
        ensures idle { IfOk result (λ did. did ≡ worked.Idle → (self.new ≡ self.old) × (out.new ≡ out.old)) }
        ensures unchanged { OnErr result ((self.new ≡ self.old) × (out.new ≡ out.old)) }
    {
        if self.mover.is_some() {
            out.reserve(1)?;
            self.move_on(role, out);
            return Ok(Worked::Did);
        }
        self.send_or_report(role, rise, out)
    }

    // Gives the next part of its move to its partner. After the end the move is over.
    fn move_on(&mut self, role: &Role, out: &mut Outbox)
        requires running { IsRunning role.now self.old }
        requires room { 1 ≤ out.old.spare }
        ensures moves { (m : MoverView) → self.old.mover ≡ Some m → Moves role.now m self.old self.new (appended out.old.packets out.new.packets) }
        ensures packets { out.new.packets ≡ out.old.packets ++ appended out.old.packets out.new.packets }
    {
        let Some(mover) = &mut self.mover else {
            return;
        };
        let inc = mover.target();
        match mover.next(&self.state) {
            None => {}
            Some(Moved::Chunk { number, entry }) => {
                out.push(role.partner(), Body::Chunk { inc, number, entry })
            }
            Some(Moved::End { count }) => {
                out.push(role.partner(), Body::ChunkEnd { inc, count });
                self.mover = None;
                self.state.unwatch();
            }
        }
    }

    // Sends what is due, or reports the first mark that is above what was told.
    fn send_or_report(
        &mut self,
        role: &Role,
        rise: u64,
        out: &mut Outbox,
    ) -> Result<Worked, OutOfMemory>
        requires role { IsRole role.now }
        ensures sends { IfOk result (λ did. IsSure rise did → SendsOrReports role.now self.old (due_of self.old.producer) (phase.Running self.new) (appended out.old.packets out.new.packets) did) }
        ensures waits { IfOk result (λ did. did ≡ worked.Idle → (due_of self.old.producer ≡ None) × NoneRose rise self.old.consumer) }
        ensures risen { IfOk result (λ did. did ≡ worked.Did → due_of self.old.producer ≡ None → NoneRose rise self.old.consumer → ⊥) }
        ensures packets { out.new.packets ≡ out.old.packets ++ appended out.old.packets out.new.packets }
        ensures one { IfOk result (λ did. did ≡ worked.Did → length out.new.packets ≡ length out.old.packets + 1) }
        ensures idle { IfOk result (λ did. did ≡ worked.Idle → (self.new ≡ self.old) × (out.new ≡ out.old)) }
        ensures unchanged { OnErr result ((self.new ≡ self.old) × (out.new ≡ out.old)) }
    {
        let Some(due) = self.producer.due() else {
            return self.report(role, rise, out);
        };
        out.reserve(1)?;
        let item = self.producer.send(due);
        push_tuple(role, due, item, out);
        Ok(Worked::Did)
    }

    // Reports the first mark that is above what was told to the controller, where some mark rose enough.
    fn report(&mut self, role: &Role, rise: u64, out: &mut Outbox) -> Result<Worked, OutOfMemory>
        requires stage { 1 ≤ role.now.stage }
        ensures reports { IfOk result (λ did. IsSure rise did → Reports role.now self.old (report_of self.old.consumer) (phase.Running self.new) (appended out.old.packets out.new.packets) did) }
        ensures waits { IfOk result (λ did. did ≡ worked.Idle → NoneRose rise self.old.consumer) }
        ensures risen { IfOk result (λ did. did ≡ worked.Did → NoneRose rise self.old.consumer → ⊥) }
        ensures packets { out.new.packets ≡ out.old.packets ++ appended out.old.packets out.new.packets }
        ensures one { IfOk result (λ did. did ≡ worked.Did → length out.new.packets ≡ length out.old.packets + 1) }
        ensures idle { IfOk result (λ did. did ≡ worked.Idle → (self.new ≡ self.old) × (out.new ≡ out.old)) }
        ensures unchanged { OnErr result ((self.new ≡ self.old) × (out.new ≡ out.old)) }
    {
        if rise > 1 && !has_risen(&self.consumer, rise) {
            return Ok(Worked::Idle);
        }
        let Some((edge, upto)) = self.consumer.report_due() else {
            return Ok(Worked::Idle);
        };
        out.reserve(1)?;
        self.consumer.tell(edge);
        push_report(role, self.inc, edge, upto, out);
        Ok(Worked::Did)
    }
}

// Whether some mark is at least this much above what was told of it.
fn has_risen(consumer: &Consumer, rise: u64) -> bool
    ensures risen { IsTrue result → (q : ℕ) × (q < length consumer.now.merge.marks) × (rise ≤ mark_of consumer.now.merge q - told_of consumer.now q) }
    ensures none { result ≡ false → NoneRose rise consumer.now }
{
    let merge = consumer.merge();
    for edge in 0..merge.edges() {
        let mark = merge.mark(edge);
        if mark.saturating_sub(consumer.told(edge)) >= rise {
            return true;
        }
    }
    false
}

// Sends an item to the replica that it is due to, or to egress.
fn push_tuple(role: &Role, due: Due, item: Item, out: &mut Outbox)
    requires stage { role.now.stage + 1 < edge_limit }
    requires room { 1 ≤ out.old.spare }
    ensures { out.new.packets ≡ out.old.packets ++ tuples_of role.now due (Some item) }
{
    let edge = EdgeId {
        stage: role.stage,
        from: role.part,
        to: due.to,
    };
    let number = due.number;
    let body = Body::Tuple { edge, number, item };
    out.push(receiver_of(role, due), body);
}

// The replica at the other end of an edge, or egress.
fn receiver_of(role: &Role, due: Due) -> NodeId
    requires { role.now.stage + 1 < edge_limit }
    ensures { result ≡ receiver_of role.now role.now.next due }
{
    match role.next {
        None => NodeId::Egress,
        Some(_) => replica(role.stage + 1, due.to, which_at(due.copy)),
    }
}

// Reports the mark of an in-edge to the controller.
fn push_report(role: &Role, inc: u64, edge: u32, upto: u64, out: &mut Outbox)
    requires stage { 1 ≤ role.now.stage }
    requires room { 1 ≤ out.old.spare }
    ensures { out.new.packets ≡ out.old.packets ++ report_packet role.now inc edge upto ∷ [] }
{
    let edge = EdgeId {
        stage: role.stage - 1,
        from: edge,
        to: role.part,
    };
    out.push(role.controller(), Body::Report { inc, edge, upto });
}
