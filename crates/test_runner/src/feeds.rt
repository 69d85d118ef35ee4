// Inputs that come to ingress one by one, while nothing runs.
use crate::answer::is_so;
use ingress_egress::Ingress;
use node_tasks::Acts;
use plan_nodes::NodeState;
use std::alloc::Global;
use std::test::Fail;
use test_kit::{NAMES, ONE, Story, told};
use tuple_edge::{Input, OutOfMemory, Row};

// An input.
const INPUT: Input = Input {
    source: 0,
    row: Row {
        time: 34_200,
        account: 7,
        symbol: 1,
        qty: 1,
        value: 100,
    },
};

// Whether ingress, to which nothing came, makes nothing, takes an input that is fed to it, and makes just that one.
fn is_made(alloc: Global, story: &Story) -> Result<bool, OutOfMemory> {
    let mut node = NodeState::Ingress(Ingress::streamed(alloc, &story.plan)?);
    let before = node.make(1, &story.plan);
    let fed = node.feed(INPUT);
    let after = node.make(2, &story.plan);
    drop(node);
    Ok(before? == 0 && fed? && after? == 1)
}

// An input that is fed to ingress is made.
#[test]
fn what_is_fed_is_made(rt: HostRuntime) -> Result<(), Fail> {
    let story = told(rt.alloc(), ONE, NAMES, b"")?;
    let well = is_made(rt.alloc(), &story);
    drop(story);
    is_so(well?)
}
