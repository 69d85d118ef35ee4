// Histories that are merged.
ghost use Rattle.std.specs.Prelude.{◌≡◌, ◌<◌, IfOk};
ghost use Rattle.pair_machine.specs.Joint.{AreRising};

use run_journal::{merge, write_events};
use std::alloc::Global;
use std::test::Fail;
use test_kit::A;
use tuple_edge::{Event, History, NodeId, Stamped};

// The history of a node with an event at each of two clocks.
fn history(
    alloc: Global,
    node: NodeId,
    event: Event,
    first: u64,
    second: u64,
) -> Result<History, Fail>
    requires { first < second }
    ensures node { IfOk result (λ h. h.node ≡ node) }
    ensures rises { IfOk result (λ h. AreRising h.entries.items) }
{
    let mut entries = Vec::new(alloc);
    entries.push(Stamped {
        clock: first,
        event,
    })?;
    entries.push(Stamped {
        clock: second,
        event,
    })?;
    Ok(History { node, entries })
}

#[test]
fn merges_by_clock_and_node(rt: HostRuntime) -> Result<(), Fail> {
    let alloc = rt.alloc();
    let egress = Event::Work {
        node: NodeId::Egress,
    };
    let work = Event::Work { node: A };
    let last = history(alloc, NodeId::Egress, egress, 2, 9)?;
    let middle = history(alloc, A, work, 2, 3)?;
    let first = history(alloc, NodeId::Ingress, Event::Make, 2, 8)?;
    let found = merge(alloc, &[last, middle, first])?;
    let text = write_events(alloc, &found)?;
    let wanted = "events 1\nmake\nwork 1.0.a\nwork out\nwork 1.0.a\nmake\nwork out\n";
    assert!(rt; text.as_slice() == wanted.as_bytes());
    Ok(())
}

#[test]
fn merges_nothing(rt: HostRuntime) -> Result<(), Fail> {
    let none: [History; 0] = [];
    let found = merge(rt.alloc(), &none)?;
    assert!(rt; found.is_empty());
    Ok(())
}
