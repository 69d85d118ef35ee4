// What a script says is due at a replica after so many items, and which scripts are safe.
use crate::fixture::{none_is_wrong, script};
use failure_script::{DueNow, Script};
use std::alloc::Global;
use std::test::Fail;
use test_kit::{A, B, ONE, TWO};
use tuple_edge::{NodeId, Which};

const NOTHING: DueNow = DueNow {
    stop: false,
    kill: false,
    back: false,
};

const STOP: DueNow = DueNow {
    stop: true,
    ..NOTHING
};

const KILL: DueNow = DueNow {
    kill: true,
    ..NOTHING
};

const BACK: DueNow = DueNow {
    back: true,
    ..NOTHING
};

const STOP_AND_BACK: DueNow = DueNow { stop: true, ..BACK };

const SECOND: NodeId = NodeId::Replica {
    stage: 2,
    part: 0,
    which: Which::A,
};

// A script, a node, how many items it has merged, and what is then due.
type Case = (&'static [u8], NodeId, u64, DueNow);

const STOPS: &[u8] = b"stop 1.0.a at 5 back 8";

const KILLS: &[u8] = b"kill 1.0.b at 2 back never";

const BOTH: &[u8] = b"stop 1.0.a at 2 back 3\nstop 1.0.b at 4 back 1";

const DUE: &[Case] = &[
    (STOPS, A, 4, NOTHING),
    (STOPS, A, 5, STOP),
    (STOPS, A, 9, STOP),
    (STOPS, B, 7, NOTHING),
    (STOPS, B, 8, BACK),
    (STOPS, NodeId::Egress, 9, NOTHING),
    (STOPS, SECOND, 9, NOTHING),
    (KILLS, B, 1, NOTHING),
    (KILLS, B, 2, KILL),
    (KILLS, A, 1_000_000, NOTHING),
    (BOTH, A, 1, BACK),
    (BOTH, A, 2, STOP_AND_BACK),
    (BOTH, B, 3, BACK),
    (BOTH, B, 4, STOP_AND_BACK),
];

fn is_due(alloc: Global, case: &Case) -> Result<bool, Fail> {
    let (text, node, count, due) = case;
    Ok(script(alloc, ONE, text)?.due_for(*node, *count) == *due)
}

fn first_wrong_due(alloc: Global) -> Result<Option<usize>, Fail> {
    for (place, case) in DUE.iter().enumerate() {
        if !is_due(alloc, case)? {
            return Ok(Some(place));
        }
    }
    Ok(None)
}

#[test]
fn tells_what_is_due(rt: HostRuntime) -> Result<(), Fail> {
    none_is_wrong(first_wrong_due(rt.alloc())?)
}

// Scripts of a plan of two stages, and whether they are safe.
const SCRIPTS: &[(&[u8], bool)] = &[
    (b"", true),
    (b"kill 1.0.a at 1 back never", true),
    (b"stop 1.0.a at 1 back 2\nstop 1.0.b at 1 back 2", true),
    (b"kill 1.0.a at 1 back 2\nkill 1.1.a at 1 back 2", true),
    (b"kill 1.0.a at 1 back 2\nkill 2.0.b at 1 back 2", true),
    (
        b"stop 1.1.b at 1 back 2\nkill 1.0.b at 1 back 2\nstop 1.1.a at 1 back never",
        true,
    ),
    (
        b"kill 1.0.a at 1 back never\nkill 1.0.b at 1 back never",
        false,
    ),
    (b"kill 1.0.a at 1 back 2\nstop 1.0.b at 1 back 2", false),
    (b"stop 1.0.a at 1 back 2\nkill 1.0.b at 1 back 2", false),
    (
        b"stop 1.0.a at 1 back 2
kill 2.0.a at 1 back 2
stop 1.1.a at 1 back 2
kill 1.1.b at 1 back 2",
        false,
    ),
];

fn is_safe(alloc: Global, text: &[u8]) -> Result<bool, Fail> {
    Ok(script(alloc, TWO, text)?.is_safe())
}

fn first_wrongly_safe(alloc: Global) -> Result<Option<usize>, Fail> {
    for (place, (text, safe)) in SCRIPTS.iter().enumerate() {
        if is_safe(alloc, text)? != *safe {
            return Ok(Some(place));
        }
    }
    Ok(None)
}

#[test]
fn knows_safe_scripts(rt: HostRuntime) -> Result<(), Fail> {
    let none = Script::empty(rt.alloc());
    assert!(rt; none.is_safe() && none.orders().is_empty());
    none_is_wrong(first_wrongly_safe(rt.alloc())?)
}
