// What a replica that runs has, and what it takes and does.
ghost use Rattle.flux_consumer.specs.ConsumerView.{report_of};
ghost use Rattle.merge_order.specs.MergeView.{all_wait, least, mark_of};
ghost use Rattle.op_spec.specs.Times.{IsTimely};
ghost use Rattle.partition_step.specs.Merging.{Merges};
ghost use Rattle.partition_step.specs.Places.{IsPlace};
ghost use Rattle.std.specs.Prelude.{◌≡◌, ◌<◌, ◌≤◌, ◌+◌, ◌++◌, ◌∷◌, [], IfOk, IsTrue, None, OnErr, OnOk, Some, length};
ghost use Rattle.trio_nodes.specs.Contents.{appended};
ghost use Rattle.trio_nodes.specs.ReplicaView.{IsAdmitted, IsRunning, RunWorks, contents_of_run, opening, partition_of, parts_of_run, pulled_by, receiver_of, report_packet, reporting, sending_or_reporting, taken_by, tuples_of};
ghost use Rattle.tuple_edge.specs.Limits.{edge_limit, number_limit};
ghost use Rattle.tuple_edge.specs.declared.event.Worked.TheVariants.{Idle};

use crate::TrioOutbox;
use crate::group::replica;
use crate::role::TrioRole;
use flux_consumer::Consumer;
use flux_producer::{Due, Producer};
use merge_order::Head;
use partition_step::merge_next;
use std::alloc::Global;
use stream_ops::OpState;
use trio_machine::{TrioBody, TrioNode};
use tuple_edge::{EdgeId, Item, OutOfMemory, Row, Worked};

/// What a running replica has: both sides of its edges, and its operator.
#[derive(Drop)]
pub struct TrioRunning {
    pub consumer: Consumer,
    pub producer: Producer,
    pub state: OpState,
}

impl TrioRunning {
    // One that has taken nothing. Replica 0 leads.
    pub(crate) fn opening(alloc: Global, role: &TrioRole) -> Result<TrioRunning, OutOfMemory>
        requires { IsPlace (partition_of role.now) role.now.sources role.now.task }
        ensures { IfOk result (λ r. r ≡ opening role.now) }
    {
        let leads = role.copy == 0;
        let consumer = Consumer::new(alloc, role.sources)?;
        let (targets, copies) = (role.targets(), role.copies());
        let producer = Producer::new(alloc, role.stage, role.part, targets, copies, leads)?;
        Ok(TrioRunning {
            consumer,
            producer,
            state: OpState::new(alloc, role.task.op),
        })
    }

    // Takes a packet by its rule.
    pub(crate) fn take(&mut self, role: &TrioRole, body: &TrioBody) -> Result<(), OutOfMemory>
        requires admitted { IsAdmitted role.now body.now }
        requires running { IsRunning role.now self.old }
        ensures taken { OnOk result (self.new ≡ taken_by body.now self.old) }
        ensures unchanged { OnErr result (self.new ≡ self.old) }
    {
        // Contracts alone name what it does.
        let _role = role;
        match *body {
            TrioBody::Tuple { edge, number, item } => {
                self.consumer.tuple(edge.from, number, item)?;
                Ok(())
            }
            TrioBody::Ack { edge, upto } => {
                self.producer.ack(edge.to, upto);
                Ok(())
            }
            TrioBody::Lead { term } => {
                self.producer.lead(term);
                Ok(())
            }
            _ => Ok(()),
        }
    }

    // Takes the next item of an edge, straight from its producer.
    pub(crate) fn pull(&mut self, role: &TrioRole, edge: u32, item: Item) -> Result<(), OutOfMemory>
        requires edge { edge < role.now.sources }
        requires fits { mark_of self.old.consumer.merge edge + 1 < number_limit }
        requires timely { IsTimely item }
        requires running { IsRunning role.now self.old }
        ensures taken { OnOk result (self.new ≡ pulled_by edge item self.old) }
        ensures unchanged { OnErr result (self.new ≡ self.old) }
        ensures running { IsRunning role.now self.new }
    {
        // Contracts alone name what it does.
        let _role = role;
        self.offer_next(edge, item)
    }

    // Offers the next item of an edge.
    fn offer_next(&mut self, edge: u32, item: Item) -> Result<(), OutOfMemory>
        requires edge { edge < length self.old.consumer.merge.marks }
        requires fits { mark_of self.old.consumer.merge edge + 1 < number_limit }
        ensures taken { OnOk result (self.new ≡ pulled_by edge item self.old) }
        ensures unchanged { OnErr result (self.new ≡ self.old) }
    {
        let next = self.consumer.merge().mark(edge) + 1;
        self.consumer.tuple(edge, next, item)?;
        Ok(())
    }

    // Does the first piece of work that is due.
    pub(crate) fn work(
        &mut self,
        role: &TrioRole,
        rows: &mut Vec<Row>,
        out: &mut TrioOutbox,
    ) -> Result<Worked, OutOfMemory>
        requires fits { IsTrue (all_wait self.old.consumer.merge.waiting) → self.old.consumer.merge.count + 1 < number_limit }
        requires place { IsPlace (partition_of role.now) role.now.sources role.now.task }
        requires running { IsRunning role.now self.old }
        ensures works { IfOk result (RunWorks role.now self.old self.new (appended out.old.packets out.new.packets)) }
        ensures packets { out.new.packets ≡ out.old.packets ++ appended out.old.packets out.new.packets }
        ensures idle { IfOk result (λ did. did ≡ Idle → (self.new ≡ self.old) × (out.new ≡ out.old)) }
        ensures unchanged { OnErr result ((contents_of_run self.new ≡ contents_of_run self.old) × (out.new.packets ≡ out.old.packets)) }
        ensures running { IsRunning role.now self.new }
    {
        self.do_first(role, rows, out)
    }

    // Does the first piece of work that is due.
    fn do_first(
        &mut self,
        role: &TrioRole,
        rows: &mut Vec<Row>,
        out: &mut TrioOutbox,
    ) -> Result<Worked, OutOfMemory>
        requires fits { IsTrue (all_wait self.old.consumer.merge.waiting) → self.old.consumer.merge.count + 1 < number_limit }
        requires place { IsPlace (partition_of role.now) role.now.sources role.now.task }
        requires running { IsRunning role.now self.old }
        ensures works { IfOk result (RunWorks role.now self.old self.new (appended out.old.packets out.new.packets)) }
        ensures packets { out.new.packets ≡ out.old.packets ++ appended out.old.packets out.new.packets }
        ensures idle { IfOk result (λ did. did ≡ Idle → (self.new ≡ self.old) × (out.new ≡ out.old)) }
        ensures unchanged { OnErr result ((contents_of_run self.new ≡ contents_of_run self.old) × (out.new.packets ≡ out.old.packets)) }
    {
        match self.consumer.least() {
            None => self.send_or_report(role, out),
            Some(head) => {
                self.merge(role, rows, head)?;
                Ok(Worked::Did)
            }
        }
    }

    // Merges the next item, which is that of this head, and produces what answers it.
    fn merge(&mut self, role: &TrioRole, rows: &mut Vec<Row>, head: Head) -> Result<(), OutOfMemory>
        requires next { least self.old.consumer.merge.waiting ≡ Some head }
        requires fits { self.old.consumer.merge.count + 1 < number_limit }
        requires timely { IsTimely head.item }
        requires place { IsPlace (partition_of role.now) role.now.sources role.now.task }
        requires running { IsRunning role.now self.old }
        ensures merges { OnOk result (Merges role.now.task.next head.item (parts_of_run self.old) (parts_of_run self.new)) }
        ensures unchanged { OnErr result (contents_of_run self.new ≡ contents_of_run self.old) }
    {
        merge_next(
            &mut self.consumer,
            &mut self.state,
            &mut self.producer,
            &role.task,
            rows,
            head,
        )
    }

    // Sends what is due, or reports the first mark that is above what was told.
    fn send_or_report(
        &mut self,
        role: &TrioRole,
        out: &mut TrioOutbox,
    ) -> Result<Worked, OutOfMemory>
        requires place { IsPlace (partition_of role.now) role.now.sources role.now.task }
        ensures worked { IfOk result (λ did. did ≡ (sending_or_reporting role.now self.old).worked) }
        ensures after { OnOk result (self.new ≡ (sending_or_reporting role.now self.old).after) }
        ensures packets { OnOk result (out.new.packets ≡ out.old.packets ++ (sending_or_reporting role.now self.old).sent) }
        ensures idle { IfOk result (λ did. did ≡ Idle → (self.new ≡ self.old) × (out.new ≡ out.old)) }
        ensures unchanged { OnErr result ((self.new ≡ self.old) × (out.new ≡ out.old)) }
    {
        if self.producer.due().is_none() {
            return self.report(role, out);
        }
        out.reserve(1)?;
        if let Some((due, item)) = self.producer.send_due() {
            push_tuple(role, due, item, out);
        }
        Ok(Worked::Did)
    }

    // Reports the first mark that is above what was told to the controller.
    fn report(&mut self, role: &TrioRole, out: &mut TrioOutbox) -> Result<Worked, OutOfMemory>
        requires stage { 1 ≤ role.now.stage }
        ensures worked { IfOk result (λ did. did ≡ (reporting role.now self.old (report_of self.old.consumer)).worked) }
        ensures after { OnOk result (self.new ≡ (reporting role.now self.old (report_of self.old.consumer)).after) }
        ensures packets { OnOk result (out.new.packets ≡ out.old.packets ++ (reporting role.now self.old (report_of self.old.consumer)).sent) }
        ensures idle { IfOk result (λ did. did ≡ Idle → (self.new ≡ self.old) × (out.new ≡ out.old)) }
        ensures unchanged { OnErr result ((self.new ≡ self.old) × (out.new ≡ out.old)) }
    {
        let Some((edge, upto)) = self.consumer.report_due() else {
            return Ok(Worked::Idle);
        };
        out.reserve(1)?;
        self.consumer.tell(edge);
        push_report(role, edge, upto, out);
        Ok(Worked::Did)
    }
}

// Sends an item to the replica that it is due to, or to egress.
fn push_tuple(role: &TrioRole, due: Due, item: Item, out: &mut TrioOutbox)
    requires stage { role.now.stage + 1 < edge_limit }
    requires room { 1 ≤ out.old.spare }
    ensures { out.new.packets ≡ out.old.packets ++ tuples_of role.now due (Some item) }
{
    let edge = EdgeId {
        stage: role.stage,
        from: role.part,
        to: due.to,
    };
    let number = due.number;
    let body = TrioBody::Tuple { edge, number, item };
    out.push(receiver_of(role, due), body);
}

// The replica at the other end of an edge, or egress.
fn receiver_of(role: &TrioRole, due: Due) -> TrioNode
    requires { role.now.stage + 1 < edge_limit }
    ensures { result ≡ receiver_of role.now role.now.task.next due }
{
    match role.task.next {
        None => TrioNode::Egress,
        Some(_) => replica(role.stage + 1, due.to, due.copy),
    }
}

// Reports the mark of an in-edge to the controller.
fn push_report(role: &TrioRole, edge: u32, upto: u64, out: &mut TrioOutbox)
    requires stage { 1 ≤ role.now.stage }
    requires room { 1 ≤ out.old.spare }
    ensures { out.new.packets ≡ out.old.packets ++ report_packet role.now edge upto ∷ [] }
{
    let edge = EdgeId {
        stage: role.stage - 1,
        from: edge,
        to: role.part,
    };
    out.push(role.controller(), TrioBody::Report { edge, upto });
}
