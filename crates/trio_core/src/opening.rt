// How a core is made: one station after another, each as it opens.
ghost use Rattle.plan_reader.specs.Nodes.{has_pair};
ghost use Rattle.plan_reader.specs.PlanView.{IsPlan};
ghost use Rattle.std.specs.Prelude.{◌≡◌, ◌<◌, ◌≤◌, ◌++◌, ◌∷◌, [], ℕ, false, IfOk, IsTrue, OnOk, length};
ghost use Rattle.trade_text.specs.TradesView.{inputs_in};
ghost use Rattle.trio_core.specs.CoreView.{inputs_of};
ghost use Rattle.trio_core.specs.Opening.{AreOpen, HasAll, HasGroup, HasStation, HaveMore, new_station};
ghost use Rattle.trio_core.specs.Promises.{emitted_by};
ghost use Rattle.trio_core.specs.Stands.{StandsFor};
ghost use Rattle.trio_machine.specs.Flow.{IsTrioPlan};
ghost use Rattle.trio_machine.specs.Machine.{opening};
ghost use Rattle.trio_machine.specs.Numbers.{group_size};
ghost use Rattle.trio_machine.specs.declared.node.TrioNode.TheVariants as node;
ghost use Rattle.tuple_edge.specs.Input.{from_first};

use crate::member::Member;
use crate::nodes::TrioCore;
use crate::sent::Sent;
use crate::station::Station;
use plan_reader::Plan;
use std::alloc::Global;
use trade_text::Trades;
use trio_nodes::{GROUP_SIZE, TrioControl, TrioEgress, TrioIngress, TrioNode, TrioReplica};
use tuple_edge::{OutOfMemory, Row};

// A station joins the others: a node under its name, which has sent nothing.
fn add(
    stations: &mut Vec<Station>,
    alloc: Global,
    name: TrioNode,
    member: Member,
) -> Result<(), OutOfMemory>
    ensures { OnOk result (stations.new.items ≡ stations.old.items ++ new_station name member ∷ []) }
{
    let sent = Sent::new(alloc);
    stations.push(Station { name, member, sent })?;
    Ok(())
}

// A replica of a group joins the others, as it opens.
fn add_replica(
    stations: &mut Vec<Station>,
    alloc: Global,
    plan: &Plan,
    stage: u32,
    part: u32,
    copy: u32,
) -> Result<(), OutOfMemory>
    requires { IsTrue (has_pair plan.now stage part) }
    ensures more { OnOk result (HaveMore plan.now stations.old.items stations.new.items) }
    ensures there { OnOk result (HasStation (node.Replica stage part copy) stations.new.items) }
{
    let replica = TrioReplica::new(alloc, plan, stage, part, copy)?;
    let name = replica.id();
    add(stations, alloc, name, Member::Replica(replica))
}

// The three replicas of a group join the others, as they open.
fn add_replicas(
    stations: &mut Vec<Station>,
    alloc: Global,
    plan: &Plan,
    stage: u32,
    part: u32,
) -> Result<(), OutOfMemory>
    requires { IsTrue (has_pair plan.now stage part) }
    ensures more { OnOk result (HaveMore plan.now stations.old.items stations.new.items) }
    ensures there { OnOk result ((c : ℕ) → c < group_size → HasStation (node.Replica stage part c) stations.new.items) }
{
    for copy in 0..GROUP_SIZE {
        add_replica(stations, alloc, plan, stage, part, copy)?;
    }
    Ok(())
}

// The controller of a group joins the others, as it opens.
fn add_control(
    stations: &mut Vec<Station>,
    alloc: Global,
    plan: &Plan,
    stage: u32,
    part: u32,
) -> Result<(), OutOfMemory>
    requires limits { IsPlan plan.now }
    requires there { IsTrue (has_pair plan.now stage part) }
    ensures more { OnOk result (HaveMore plan.now stations.old.items stations.new.items) }
    ensures there { OnOk result (HasStation (node.Control stage part) stations.new.items) }
{
    let control = TrioControl::new(alloc, stage, part, plan.sources(stage))?;
    let name = control.id();
    add(stations, alloc, name, Member::Control(control))
}

// The replicas and the controller of a group join the others, as they open.
fn add_group(
    stations: &mut Vec<Station>,
    alloc: Global,
    plan: &Plan,
    stage: u32,
    part: u32,
) -> Result<(), OutOfMemory>
    requires limits { IsPlan plan.now }
    requires there { IsTrue (has_pair plan.now stage part) }
    ensures more { OnOk result (HaveMore plan.now stations.old.items stations.new.items) }
    ensures there { OnOk result (HasGroup stations.new.items stage part) }
{
    add_replicas(stations, alloc, plan, stage, part)?;
    add_control(stations, alloc, plan, stage, part)?;
    Ok(())
}

// The groups of a stage join the others, as they open.
fn add_stage(
    stations: &mut Vec<Station>,
    alloc: Global,
    plan: &Plan,
    stage: u32,
) -> Result<(), OutOfMemory>
    requires limits { IsPlan plan.now }
    requires low { 1 ≤ stage }
    requires high { stage ≤ length plan.now.stages }
    ensures more { OnOk result (HaveMore plan.now stations.old.items stations.new.items) }
    ensures there { OnOk result ((p : ℕ) → IsTrue (has_pair plan.now stage p) → HasGroup stations.new.items stage p) }
{
    let parts = plan.stages()[stage as usize - 1].parts;
    for part in 0..parts {
        add_group(stations, alloc, plan, stage, part)?;
    }
    Ok(())
}

// All groups of a plan join the others, as they open.
fn add_groups(stations: &mut Vec<Station>, alloc: Global, plan: &Plan) -> Result<(), OutOfMemory>
    requires { IsPlan plan.now }
    ensures more { OnOk result (HaveMore plan.now stations.old.items stations.new.items) }
    ensures there { OnOk result ((s p : ℕ) → IsTrue (has_pair plan.now s p) → HasGroup stations.new.items s p) }
{
    let stages = plan.stages().len() as u32;
    for stage in 0..stages {
        add_stage(stations, alloc, plan, stage + 1)?;
    }
    Ok(())
}

// Egress joins the others, as it opens.
fn add_egress(stations: &mut Vec<Station>, alloc: Global, plan: &Plan) -> Result<(), OutOfMemory>
    ensures more { OnOk result (HaveMore plan.now stations.old.items stations.new.items) }
    ensures there { OnOk result (HasStation node.Egress stations.new.items) }
{
    let egress = TrioEgress::new(alloc, plan)?;
    let name = egress.id();
    add(stations, alloc, name, Member::Egress(egress))
}

// Ingress of a plan and its rows by itself, as it opens.
fn with_ingress(alloc: Global, plan: &Plan, rows: &[Row]) -> Result<Vec<Station>, OutOfMemory>
    requires { IsTrioPlan plan.now }
    ensures opens { IfOk result (λ stations. AreOpen plan.now (from_first rows.now) stations.items) }
    ensures there { IfOk result (λ stations. HasStation node.Ingress stations.items) }
{
    let ingress = TrioIngress::new(alloc, plan, rows)?;
    let name = ingress.id();
    let mut stations = Vec::new(alloc);
    add(&mut stations, alloc, name, Member::Ingress(ingress))?;
    Ok(stations)
}

// All nodes of a plan and its rows, as they open.
fn open_stations(alloc: Global, plan: &Plan, rows: &[Row]) -> Result<Vec<Station>, OutOfMemory>
    requires { IsTrioPlan plan.now }
    ensures opens { IfOk result (λ stations. AreOpen plan.now (from_first rows.now) stations.items) }
    ensures there { IfOk result (λ stations. HasAll plan.now stations.items) }
{
    let mut stations = with_ingress(alloc, plan, rows)?;
    add_groups(&mut stations, alloc, plan)?;
    add_egress(&mut stations, alloc, plan)?;
    Ok(stations)
}

impl TrioCore {
    /// The nodes of a plan as they open: nothing was made or sent.
    pub fn new(alloc: Global, plan: &Plan, trades: &Trades) -> Result<TrioCore, OutOfMemory>
        requires one_source { plan.now.version ≡ 1 }
        requires unmerged { trades.now.merged ≡ false }
        ensures opens { IfOk result (λ core. StandsFor core opening) }
        ensures plan { IfOk result (λ core. core.plan ≡ plan.now) }
        ensures inputs { IfOk result (λ core. inputs_of core ≡ inputs_in trades.now) }
        ensures none { IfOk result (λ core. emitted_by core ≡ []) }
    {
        // This call's clause says that the plan is within its limits.
        let _stages = plan.stages();
        let stations = open_stations(alloc, plan, trades.rows())?;
        Ok(TrioCore {
            plan: plan.copied(alloc)?,
            stations,
        })
    }
}
