// What an event asks of its node, done by each kind of node.
ghost use Rattle.std.specs.Prelude.{◌≡◌, ◌≤◌, ◌++◌, ◌↔◌, [], IfErr, IsTrue, OnErr, OnOk};
ghost use Rattle.trio_nodes.specs.Contents.{appended};
ghost use Rattle.trio_nodes.specs.ControllerView.{node_of};
ghost use Rattle.trio_nodes.specs.IngressView.{contents_in};
ghost use Rattle.trio_nodes.specs.Outbox.{most_packets};
ghost use Rattle.trio_core.specs.Acts.{ActsSo, Fits, IsRefusedSo, MayBeAsked};
ghost use Rattle.trio_core.specs.CoreView.{contents_of, contents_of_replica, inputs_in, name_of};
ghost use Rattle.trio_core.specs.declared.error.TrioError.TheVariants as error;
ghost use Rattle.trio_core.specs.declared.member.Member.TheVariants as member;
ghost use Rattle.trio_core.specs.declared.task.TrioTask.TheVariants as task;

use crate::error::TrioError;
use crate::member::Member;
use crate::task::TrioTask;
use trio_nodes::{
    TrioBody, TrioControl, TrioEgress, TrioIngress, TrioNode, TrioOutbox, TrioReplica,
};
use tuple_edge::{Item, NUMBER_LIMIT, Worked};

// A node does what an event asks of it, whichever kind it is.
pub(crate) fn member_acts(
    member: &mut Member,
    task: &TrioTask,
    out: &mut TrioOutbox,
) -> Result<(), TrioError>
    requires asked { MayBeAsked task.now member.old }
    requires room { most_packets ≤ out.old.spare }
    ensures acts { OnOk result (ActsSo task.now member.old member.new (appended out.old.packets out.new.packets)) }
    ensures packets { out.new.packets ≡ out.old.packets ++ appended out.old.packets out.new.packets }
    ensures refused { IfErr result (IsRefusedSo task.now member.old) }
    ensures unchanged { OnErr result ((contents_of member.new ≡ contents_of member.old) × (out.new.packets ≡ out.old.packets)) }
    ensures inputs { inputs_in member.new ≡ inputs_in member.old }
    ensures name { name_of member.new ≡ name_of member.old }
{
    match member {
        Member::Ingress(ingress) => ingress_acts(ingress, task, out),
        Member::Replica(replica) => replica_acts(replica, task, out),
        Member::Control(control) => control_acts(control, task, out),
        Member::Egress(egress) => egress_acts(egress, task, out),
    }
}

// Whether the number of an acknowledgement is within its limit.
fn fits(body: &TrioBody) -> bool
    ensures { IsTrue result ↔ Fits body.now }
{
    match *body {
        TrioBody::Ack { upto, .. } => upto < NUMBER_LIMIT,
        _ => true,
    }
}

// Ingress takes a packet, works or makes.
fn ingress_acts(
    node: &mut TrioIngress,
    task: &TrioTask,
    out: &mut TrioOutbox,
) -> Result<(), TrioError>
    requires asked { MayBeAsked task.now (member.Ingress node.old) }
    ensures acts { OnOk result (ActsSo task.now (member.Ingress node.old) (member.Ingress node.new) (appended out.old.packets out.new.packets)) }
    ensures packets { out.new.packets ≡ out.old.packets ++ appended out.old.packets out.new.packets }
    ensures refused { IfErr result (IsRefusedSo task.now (member.Ingress node.old)) }
    ensures unchanged { OnErr result ((contents_in node.new ≡ contents_in node.old) × (out.new.packets ≡ out.old.packets)) }
    ensures inputs { node.new.inputs ≡ node.old.inputs }
{
    match *task {
        TrioTask::Take { from, body } => ingress_takes(node, from, &body),
        TrioTask::Work => ingress_works(node, out),
        TrioTask::Make => ingress_makes(node),
        TrioTask::Kill | TrioTask::Pull { .. } => Err(TrioError::NotRunning),
    }
}

// Ingress takes a packet, where its number is within its limit.
fn ingress_takes(node: &mut TrioIngress, from: TrioNode, body: &TrioBody) -> Result<(), TrioError>
    requires asked { MayBeAsked (task.Take from body.now) (member.Ingress node.old) }
    ensures acts { OnOk result (ActsSo (task.Take from body.now) (member.Ingress node.old) (member.Ingress node.new) []) }
    ensures refused { IfErr result (λ e. e ≡ error.OutOfMemory) }
    ensures unchanged { OnErr result (node.new ≡ node.old) }
    ensures inputs { node.new.inputs ≡ node.old.inputs }
{
    if fits(body) {
        node.on(from, body);
        return Ok(());
    }
    Err(TrioError::OutOfMemory)
}

// Ingress sends what is due.
fn ingress_works(node: &mut TrioIngress, out: &mut TrioOutbox) -> Result<(), TrioError>
    ensures acts { OnOk result (ActsSo task.Work (member.Ingress node.old) (member.Ingress node.new) (appended out.old.packets out.new.packets)) }
    ensures packets { out.new.packets ≡ out.old.packets ++ appended out.old.packets out.new.packets }
    ensures refused { IfErr result (IsRefusedSo task.Work (member.Ingress node.old)) }
    ensures unchanged { OnErr result ((node.new ≡ node.old) × (out.new.packets ≡ out.old.packets)) }
    ensures inputs { node.new.inputs ≡ node.old.inputs }
{
    match node.work(out)? {
        Worked::Did => Ok(()),
        Worked::Idle => Err(TrioError::NothingDue),
    }
}

// Ingress makes the next input into items.
fn ingress_makes(node: &mut TrioIngress) -> Result<(), TrioError>
    ensures acts { OnOk result (ActsSo task.Make (member.Ingress node.old) (member.Ingress node.new) []) }
    ensures refused { IfErr result (IsRefusedSo task.Make (member.Ingress node.old)) }
    ensures unchanged { OnErr result (contents_in node.new ≡ contents_in node.old) }
    ensures inputs { node.new.inputs ≡ node.old.inputs }
{
    match node.make()? {
        Worked::Did => Ok(()),
        Worked::Idle => Err(TrioError::NoMoreRows),
    }
}

// A replica takes a packet, works, fails or pulls.
fn replica_acts(
    node: &mut TrioReplica,
    task: &TrioTask,
    out: &mut TrioOutbox,
) -> Result<(), TrioError>
    requires asked { MayBeAsked task.now (member.Replica node.old) }
    requires room { most_packets ≤ out.old.spare }
    ensures acts { OnOk result (ActsSo task.now (member.Replica node.old) (member.Replica node.new) (appended out.old.packets out.new.packets)) }
    ensures packets { out.new.packets ≡ out.old.packets ++ appended out.old.packets out.new.packets }
    ensures refused { IfErr result (IsRefusedSo task.now (member.Replica node.old)) }
    ensures unchanged { OnErr result ((contents_of_replica node.new ≡ contents_of_replica node.old) × (out.new.packets ≡ out.old.packets)) }
    ensures role { node.new.role ≡ node.old.role }
{
    match *task {
        TrioTask::Take { from, body } => replica_takes(node, from, &body),
        TrioTask::Work => replica_works(node, out),
        TrioTask::Make => Err(TrioError::NothingDue),
        TrioTask::Kill => replica_dies(node, out),
        TrioTask::Pull { edge, item } => replica_pulls(node, edge, item),
    }
}

// A replica takes a packet, where its number is within its limit.
fn replica_takes(node: &mut TrioReplica, from: TrioNode, body: &TrioBody) -> Result<(), TrioError>
    requires asked { MayBeAsked (task.Take from body.now) (member.Replica node.old) }
    ensures acts { OnOk result (ActsSo (task.Take from body.now) (member.Replica node.old) (member.Replica node.new) []) }
    ensures refused { IfErr result (λ e. e ≡ error.OutOfMemory) }
    ensures unchanged { OnErr result (node.new ≡ node.old) }
    ensures role { node.new.role ≡ node.old.role }
{
    if !fits(body) {
        return Err(TrioError::OutOfMemory);
    }
    node.on(from, body)?;
    Ok(())
}

// A replica works, where no number would pass its limit.
fn replica_works(node: &mut TrioReplica, out: &mut TrioOutbox) -> Result<(), TrioError>
    ensures acts { OnOk result (ActsSo task.Work (member.Replica node.old) (member.Replica node.new) (appended out.old.packets out.new.packets)) }
    ensures packets { out.new.packets ≡ out.old.packets ++ appended out.old.packets out.new.packets }
    ensures refused { IfErr result (IsRefusedSo task.Work (member.Replica node.old)) }
    ensures unchanged { OnErr result ((contents_of_replica node.new ≡ contents_of_replica node.old) × (out.new.packets ≡ out.old.packets)) }
    ensures role { node.new.role ≡ node.old.role }
{
    if !node.may_work() {
        return Err(TrioError::OutOfMemory);
    }
    match node.work(out)? {
        Worked::Did => Ok(()),
        Worked::Idle => Err(TrioError::NothingDue),
    }
}

// A replica that runs fails.
fn replica_dies(node: &mut TrioReplica, out: &mut TrioOutbox) -> Result<(), TrioError>
    requires room { 1 ≤ out.old.spare }
    ensures acts { OnOk result (ActsSo task.Kill (member.Replica node.old) (member.Replica node.new) (appended out.old.packets out.new.packets)) }
    ensures packets { out.new.packets ≡ out.old.packets ++ appended out.old.packets out.new.packets }
    ensures refused { IfErr result (IsRefusedSo task.Kill (member.Replica node.old)) }
    ensures unchanged { OnErr result ((node.new ≡ node.old) × (out.new.packets ≡ out.old.packets)) }
    ensures role { node.new.role ≡ node.old.role }
{
    if !node.running() {
        return Err(TrioError::NotRunning);
    }
    node.kill(out);
    Ok(())
}

// A replica takes the next item of an edge, where no number would pass its limit.
fn replica_pulls(node: &mut TrioReplica, edge: u32, item: Item) -> Result<(), TrioError>
    requires asked { MayBeAsked (task.Pull edge item) (member.Replica node.old) }
    ensures acts { OnOk result (ActsSo (task.Pull edge item) (member.Replica node.old) (member.Replica node.new) []) }
    ensures refused { IfErr result (λ e. e ≡ error.OutOfMemory) }
    ensures unchanged { OnErr result (node.new ≡ node.old) }
    ensures role { node.new.role ≡ node.old.role }
{
    if !node.may_pull(edge) {
        return Err(TrioError::OutOfMemory);
    }
    node.pull(edge, item)?;
    Ok(())
}

// A controller takes a packet; it has no work.
fn control_acts(
    node: &mut TrioControl,
    task: &TrioTask,
    out: &mut TrioOutbox,
) -> Result<(), TrioError>
    requires asked { MayBeAsked task.now (member.Control node.old) }
    requires room { most_packets ≤ out.old.spare }
    ensures acts { OnOk result (ActsSo task.now (member.Control node.old) (member.Control node.new) (appended out.old.packets out.new.packets)) }
    ensures packets { out.new.packets ≡ out.old.packets ++ appended out.old.packets out.new.packets }
    ensures refused { IfErr result (IsRefusedSo task.now (member.Control node.old)) }
    ensures unchanged { OnErr result ((node.new ≡ node.old) × (out.new.packets ≡ out.old.packets)) }
    ensures id { node_of node.new ≡ node_of node.old }
{
    match *task {
        TrioTask::Take { from, body } => control_takes(node, from, &body, out),
        TrioTask::Work | TrioTask::Make => Err(TrioError::NothingDue),
        TrioTask::Kill | TrioTask::Pull { .. } => Err(TrioError::NotRunning),
    }
}

// A controller takes a packet, where its term would stay within its limit.
fn control_takes(
    node: &mut TrioControl,
    from: TrioNode,
    body: &TrioBody,
    out: &mut TrioOutbox,
) -> Result<(), TrioError>
    requires asked { MayBeAsked (task.Take from body.now) (member.Control node.old) }
    requires room { most_packets ≤ out.old.spare }
    ensures acts { OnOk result (ActsSo (task.Take from body.now) (member.Control node.old) (member.Control node.new)
        (appended out.old.packets out.new.packets)) }
    ensures packets { out.new.packets ≡ out.old.packets ++ appended out.old.packets out.new.packets }
    ensures refused { IfErr result (λ e. e ≡ error.OutOfMemory) }
    ensures unchanged { OnErr result ((node.new ≡ node.old) × (out.new.packets ≡ out.old.packets)) }
    ensures id { node_of node.new ≡ node_of node.old }
{
    if node.term() >= NUMBER_LIMIT - 1 {
        return Err(TrioError::OutOfMemory);
    }
    node.on(from, body, out);
    Ok(())
}

// Egress takes a packet, works or pulls.
fn egress_acts(
    node: &mut TrioEgress,
    task: &TrioTask,
    out: &mut TrioOutbox,
) -> Result<(), TrioError>
    requires asked { MayBeAsked task.now (member.Egress node.old) }
    ensures acts { OnOk result (ActsSo task.now (member.Egress node.old) (member.Egress node.new) (appended out.old.packets out.new.packets)) }
    ensures packets { out.new.packets ≡ out.old.packets ++ appended out.old.packets out.new.packets }
    ensures refused { IfErr result (IsRefusedSo task.now (member.Egress node.old)) }
    ensures unchanged { OnErr result ((node.new ≡ node.old) × (out.new.packets ≡ out.old.packets)) }
{
    match *task {
        TrioTask::Take { from, body } => egress_takes(node, from, &body),
        TrioTask::Work => egress_works(node, out),
        TrioTask::Make => Err(TrioError::NothingDue),
        TrioTask::Kill => Err(TrioError::NotRunning),
        TrioTask::Pull { edge, item } => egress_pulls(node, edge, item),
    }
}

// Egress takes a packet.
fn egress_takes(node: &mut TrioEgress, from: TrioNode, body: &TrioBody) -> Result<(), TrioError>
    requires asked { MayBeAsked (task.Take from body.now) (member.Egress node.old) }
    ensures acts { OnOk result (ActsSo (task.Take from body.now) (member.Egress node.old) (member.Egress node.new) []) }
    ensures refused { IfErr result (λ e. e ≡ error.OutOfMemory) }
    ensures unchanged { OnErr result (node.new ≡ node.old) }
{
    node.on(from, body)?;
    Ok(())
}

// Egress works, where no number would pass its limit.
fn egress_works(node: &mut TrioEgress, out: &mut TrioOutbox) -> Result<(), TrioError>
    ensures acts { OnOk result (ActsSo task.Work (member.Egress node.old) (member.Egress node.new) (appended out.old.packets out.new.packets)) }
    ensures packets { out.new.packets ≡ out.old.packets ++ appended out.old.packets out.new.packets }
    ensures refused { IfErr result (IsRefusedSo task.Work (member.Egress node.old)) }
    ensures unchanged { OnErr result ((node.new ≡ node.old) × (out.new.packets ≡ out.old.packets)) }
{
    if !node.may_work() {
        return Err(TrioError::OutOfMemory);
    }
    match node.work(out)? {
        Worked::Did => Ok(()),
        Worked::Idle => Err(TrioError::NothingDue),
    }
}

// Egress takes the next item of an edge, where no number would pass its limit.
fn egress_pulls(node: &mut TrioEgress, edge: u32, item: Item) -> Result<(), TrioError>
    ensures acts { OnOk result (ActsSo (task.Pull edge item) (member.Egress node.old) (member.Egress node.new) []) }
    ensures refused { IfErr result (λ e. e ≡ error.OutOfMemory) }
    ensures unchanged { OnErr result (node.new ≡ node.old) }
{
    if edge >= node.consumer().merge().edges() || !node.may_pull(edge) {
        return Err(TrioError::OutOfMemory);
    }
    node.pull(edge, item)?;
    Ok(())
}
