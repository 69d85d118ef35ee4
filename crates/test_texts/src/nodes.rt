// The nodes, links, sources and settings of plans.
use crate::fixture::none_is_wrong;
use plan_reader::{Plan, read_plan};
use std::alloc::Global;
use std::test::Fail;
use tuple_edge::{LinkId, NodeId, OutOfMemory, Which};

const SIX: &[u8] = b"flux 1
stage 1 parts 8 by account total account
stage 2 parts 8 by account total account
stage 3 parts 8 by account total account
stage 4 parts 8 by account total account
stage 5 parts 8 by account total account
stage 6 parts 8 by account total account
";

// The three nodes of a partition join the others.
fn push_pair(nodes: &mut Vec<NodeId>, stage: u32, part: u32) -> Result<(), OutOfMemory> {
    for which in [Which::A, Which::B] {
        nodes.push(NodeId::Replica { stage, part, which })?;
    }
    nodes.push(NodeId::Control { stage, part })?;
    Ok(())
}

// All nodes of six stages of eight partitions.
fn all_nodes(alloc: Global) -> Result<Vec<NodeId>, OutOfMemory> {
    let mut nodes = Vec::new(alloc);
    nodes.push(NodeId::Ingress)?;
    for stage in 1..7u32 {
        for part in 0..8u32 {
            push_pair(&mut nodes, stage, part)?;
        }
    }
    nodes.push(NodeId::Egress)?;
    Ok(nodes)
}

// How many links lead from a node to others.
fn links_from(plan: &Plan, from: NodeId, nodes: &[NodeId]) -> u64 {
    let mut count = 0u64;
    for to in nodes {
        if plan.links(LinkId { from, to: *to }) {
            count = count.saturating_add(1);
        }
    }
    count
}

// How many links a plan has among these nodes, each of which it has to have.
fn links(plan: &Plan, nodes: &[NodeId]) -> Option<u64> {
    let mut count = 0u64;
    for from in nodes {
        if !plan.has(*from) {
            return None;
        }
        count = count.saturating_add(links_from(plan, *from, nodes));
    }
    Some(count)
}

fn links_of_six(alloc: Global, plan: &Plan) -> Result<Option<u64>, OutOfMemory> {
    Ok(links(plan, &all_nodes(alloc)?))
}

// Partitions that six stages of eight don't have.
const NO_PARTS: &[(u32, u32)] = &[(0, 0), (7, 0), (1, 8), (4_294_967_295, 0)];

#[test]
fn counts_the_links_of_the_largest_plan(rt: HostRuntime) -> Result<(), Fail> {
    let plan = read_plan(rt.alloc(), SIX)?;
    assert!(rt; links_of_six(rt.alloc(), &plan)? == Some(3_560));
    let mut parts = NO_PARTS.iter();
    none_is_wrong(parts.position(|(stage, part)| {
        plan.has(NodeId::Control {
            stage: *stage,
            part: *part,
        })
    }))
}

// Whether the plan has the settings, the stages and the sources of the text below.
fn has_settings(plan: &Plan) -> bool {
    let stages = plan.stages();
    if stages.len() != 2 {
        return false;
    }
    let second = stages[1].parts;
    let first_of_one = plan.sources(1) == 1;
    let second_of_three = plan.sources(2) == 3;
    let egress_of_five = plan.sources(3) == 5;
    let sources = first_of_one && second_of_three && egress_of_five;
    plan.mark() == 9 && plan.hold() == 17 && plan.version() == 1 && second == 5 && sources
}

#[test]
fn knows_sources_and_settings(rt: HostRuntime) -> Result<(), Fail> {
    let text = b"flux 1
mark 9
hold 17
stage 1 parts 3 by qty total both
stage 2 parts 5 by qty total both
";
    let plan = read_plan(rt.alloc(), text)?;
    assert!(rt; has_settings(&plan));
    Ok(())
}

#[test]
fn knows_two_sources_of_ingress(rt: HostRuntime) -> Result<(), Fail> {
    let two = read_plan(rt.alloc(), b"flux 2\nstage 1 parts 3 by qty total both\n")?;
    assert!(rt; two.version() == 2 && two.sources(1) == 2 && two.sources(2) == 3);
    Ok(())
}
