// Events and the lines that say them.
use crate::fixture::{events, two};
use run_journal::{Lined, MAX_REPEATS, read_events, write_events};
use std::alloc::Global;
use std::test::Fail;
use test_kit::B;
use tuple_edge::{Event, LinkId, NodeId};

const LINED: &[Lined] = &[
    Lined {
        line: 3,
        event: Event::Make,
    },
    Lined {
        line: 3,
        event: Event::Make,
    },
    Lined {
        line: 5,
        event: Event::AskBack { node: B },
    },
    Lined {
        line: 6,
        event: Event::Take {
            link: LinkId {
                from: NodeId::Ingress,
                to: B,
            },
            index: 2,
        },
    },
];

// The events of a text of two stages, each with its line.
fn lined(alloc: Global, text: &[u8]) -> Result<Vec<Lined>, Fail> {
    let plan = two(alloc)?;
    Ok(read_events(alloc, text, &plan)?)
}

#[test]
fn counts_lines_from_one(rt: HostRuntime) -> Result<(), Fail> {
    let text = b"events 1\n\nmake 2\n# c\naskback 1.0.b\ntake in>1.0.b 2";
    let found = lined(rt.alloc(), text)?;
    assert!(rt; found.as_slice() == LINED);
    Ok(())
}

#[test]
fn repeats_an_event(rt: HostRuntime) -> Result<(), Fail> {
    let found = lined(rt.alloc(), b"events 1\nmake 1000000\nwork in")?;
    assert!(rt; found.len() as u64 == MAX_REPEATS.saturating_add(1));
    Ok(())
}

const WRITTEN: &str = "events 1\nmake\nmake\naskback 1.0.b\ntake in>1.0.b 2\n";

#[test]
fn writes_each_event_in_a_line(rt: HostRuntime) -> Result<(), Fail> {
    let text = write_events(rt.alloc(), &events(rt.alloc(), LINED)?)?;
    assert!(rt; text.as_slice() == WRITTEN.as_bytes());
    Ok(())
}

fn reads_back(alloc: Global, wanted: &[Event]) -> Result<bool, Fail> {
    let found = lined(alloc, WRITTEN.as_bytes())?;
    Ok(events(alloc, &found)?.as_slice() == wanted)
}

#[test]
fn what_was_written_reads_back(rt: HostRuntime) -> Result<(), Fail> {
    let wanted = events(rt.alloc(), LINED)?;
    assert!(rt; reads_back(rt.alloc(), &wanted)?);
    Ok(())
}
