// Texts that are read, and the canonical text of what each says, worked out by hand from the descriptions of the formats.
use crate::canonical::{Kind, canonical};
use crate::fixture::none_is_wrong;
use std::alloc::Global;
use std::process::Abort;
use std::test::Fail;

// A text, and the canonical text of what was read.
type Case = (&'static [u8], &'static str);

const PLANS: &[Case] = &[
    (
        b"flux 1\nstage 1 parts 1 by account total account",
        "flux 1\nmark 64\nhold 1024\nstage 1 parts 1 by account total account\n",
    ),
    (
        b"flux 01\r\nstage 1 parts 1 by account total account\r\n",
        "flux 1\nmark 64\nhold 1024\nstage 1 parts 1 by account total account\n",
    ),
    (
        b"#flux 2\n  # \xff\x00\n\tflux\t 1 \t\n\nstage \t 1 \t parts \t 1 \t by \t account \t total \t account\t\n",
        "flux 1\nmark 64\nhold 1024\nstage 1 parts 1 by account total account\n",
    ),
    (
        b"flux\t02\nstage 1 parts 1 by account total account",
        "flux 2\nmark 64\nhold 1024\nstage 1 parts 1 by account total account\n",
    ),
    (
        b"flux 2\nmark 1\nstage 1 parts 2 by account total account",
        "flux 2\nmark 1\nhold 1024\nstage 1 parts 2 by account total account\n",
    ),
    (
        b"flux 1\nhold 0065536\nmark 0000000000000000004\nstage 001 parts 1 by time last both 64\n",
        "flux 1\nmark 4\nhold 65536\nstage 1 parts 1 by time last both 64\n",
    ),
    (
        b"flux 1\nstage 1 parts 1 by account keep qty = -0",
        "flux 1\nmark 64\nhold 1024\nstage 1 parts 1 by account keep qty = 0\n",
    ),
    (
        b"flux 1\nstage 1 parts 1 by account keep time < -9000000000000000000",
        "flux 1\nmark 64\nhold 1024\nstage 1 parts 1 by account keep time < -9000000000000000000\n",
    ),
    (
        b"flux 1\nstage 1 parts 1 by account keep value != 9000000000000000000",
        "flux 1
mark 64
hold 1024
stage 1 parts 1 by account keep value != 9000000000000000000
",
    ),
    (
        b"flux 1\nstage 1 parts 1 by account keep account <= 007",
        "flux 1\nmark 64\nhold 1024\nstage 1 parts 1 by account keep account <= 7\n",
    ),
    (
        b"flux 1\nstage 1 parts 1 by account keep symbol >= 1",
        "flux 1\nmark 64\nhold 1024\nstage 1 parts 1 by account keep symbol >= 1\n",
    ),
    (
        b"flux 1\nstage 1 parts 1 by account keep qty > -007",
        "flux 1\nmark 64\nhold 1024\nstage 1 parts 1 by account keep qty > -7\n",
    ),
    (
        b"flux 1\nstage 1 parts 1 by account window symbol 1000000",
        "flux 1\nmark 64\nhold 1024\nstage 1 parts 1 by account window symbol 1000000\n",
    ),
    (
        b"flux 1\nstage 1 parts 1 by account crossing both 0",
        "flux 1\nmark 64\nhold 1024\nstage 1 parts 1 by account crossing both 0\n",
    ),
    (
        b"flux 1\nstage 1 parts 1 by account crossing account 9000000000000000000",
        "flux 1
mark 64
hold 1024
stage 1 parts 1 by account crossing account 9000000000000000000
",
    ),
    (
        b"flux 1\nmark 1\nstage 1 parts 4 by qty total symbol",
        "flux 1\nmark 1\nhold 1024\nstage 1 parts 4 by qty total symbol\n",
    ),
    (
        b"flux 1
mark 1
stage 1 parts 2 by account total account
stage 2 parts 2 by value total both",
        "flux 1
mark 1
hold 1024
stage 1 parts 2 by account total account
stage 2 parts 2 by value total both
",
    ),
    // As many edges as the mark allows, from two sources.
    (
        b"flux 2
mark 1
stage 1 parts 1 by account total account
stage 2 parts 3 by account total account",
        "flux 2
mark 1
hold 1024
stage 1 parts 1 by account total account
stage 2 parts 3 by account total account
",
    ),
    // As many stages as there may be.
    (
        b"flux 1
stage 1 parts 8 by account total account
stage 2 parts 8 by account total account
stage 3 parts 8 by account total account
stage 4 parts 8 by account total account
stage 5 parts 8 by account total account
stage 6 parts 8 by account total account
",
        "flux 1
mark 64
hold 1024
stage 1 parts 8 by account total account
stage 2 parts 8 by account total account
stage 3 parts 8 by account total account
stage 4 parts 8 by account total account
stage 5 parts 8 by account total account
stage 6 parts 8 by account total account
",
    ),
    (
        b"flux 1
stage 1 parts 8 by account total account
stage 2 parts 8 by account total account
stage 3 parts 8 by account total account
stage 4 parts 8 by account total account
stage 5 parts 8 by account total account
stage 6 parts 8 by account join account 60 2 symbol = 0
",
        "flux 1
mark 64
hold 1024
stage 1 parts 8 by account total account
stage 2 parts 8 by account total account
stage 3 parts 8 by account total account
stage 4 parts 8 by account total account
stage 5 parts 8 by account total account
stage 6 parts 8 by account join account 60 2 symbol = 0
",
    ),
];

const JOINS: &[Case] = &[
    (
        b"flux 2\nstage 1 parts 1 by account join account 60 2 symbol = 0",
        "flux 2\nmark 64\nhold 1024\nstage 1 parts 1 by account join account 60 2 symbol = 0\n",
    ),
    (
        b"flux 1\nstage 1 parts 1 by account join account 60 2 symbol = 0",
        "flux 1\nmark 64\nhold 1024\nstage 1 parts 1 by account join account 60 2 symbol = 0\n",
    ),
    (
        b"flux 1\nstage 1 parts 1 by account join both 1 1 value < -9000000000000000000",
        "flux 1
mark 64
hold 1024
stage 1 parts 1 by account join both 1 1 value < -9000000000000000000
",
    ),
    (
        b"flux 1\nstage 1 parts 1 by account join symbol 1000000 4 qty >= 9000000000000000000",
        "flux 1
mark 64
hold 1024
stage 1 parts 1 by account join symbol 1000000 4 qty >= 9000000000000000000
",
    ),
    (
        b"flux 1\nstage 1 parts 1 by account join \t symbol 007 04 time != -0",
        "flux 1\nmark 64\nhold 1024\nstage 1 parts 1 by account join symbol 7 4 time != 0\n",
    ),
    (
        b"flux 1\nstage 1 parts 1 by account join account 60 3 account <= -007",
        "flux 1\nmark 64\nhold 1024\nstage 1 parts 1 by account join account 60 3 account <= -7\n",
    ),
    (
        b"flux 1
stage 1 parts 2 by symbol total both
stage 2 parts 3 by account join both 5 1 qty > 0
",
        "flux 1
mark 64
hold 1024
stage 1 parts 2 by symbol total both
stage 2 parts 3 by account join both 5 1 qty > 0
",
    ),
];

// Of a plan of two stages, of two partitions and of one.
const SCRIPTS: &[Case] = &[
    (b"", ""),
    (b"\n \t\r\n# kill 1.0.a at 1 back never\n", ""),
    (b"stop 1.0.a at 5 back 6", "stop 1.0.a at 5 back 6\n"),
    (
        b"kill 1.0.b at 1 back never\r\n",
        "kill 1.0.b at 1 back never\n",
    ),
    (
        b"\tkill  1.0.a\tat 1000000  back 1000000 \n",
        "kill 1.0.a at 1000000 back 1000000\n",
    ),
    (
        b"stop 000000001.0.a at 0005 back 06",
        "stop 1.0.a at 5 back 6\n",
    ),
    (
        b"kill 1.0.b at 9 back 1\n\n#\nkill 1.0.a at 8 back never",
        "kill 1.0.b at 9 back 1\nkill 1.0.a at 8 back never\n",
    ),
    (
        b"stop 2.0.b at 1 back never\nkill 1.1.a at 1 back 2\n",
        "stop 2.0.b at 1 back never\nkill 1.1.a at 1 back 2\n",
    ),
    (b"kill 1.1.b at 3 back 4\n", "kill 1.1.b at 3 back 4\n"),
];

// Of the same plan.
const EVENTS: &[Case] = &[
    (b"events 1", "events 1\n"),
    (b" events\t1 \r\n\n#fly\n", "events 1\n"),
    (
        b"events 1\nmake 3\nmake",
        "events 1\nmake\nmake\nmake\nmake\n",
    ),
    (
        b"events 1\nwork in\nwork out 2\nwork 1.1.c\nwork 000000001.00.b 01\n",
        "events 1\nwork in\nwork out\nwork out\nwork 1.1.c\nwork 1.0.b\n",
    ),
    (
        b"events 1\ntake in>1.0.a 1\ntake 1.0.a>2.0.b 07\ntake 2.0.b>out 3\n",
        "events 1\ntake in>1.0.a 1\ntake 1.0.a>2.0.b 7\ntake 2.0.b>out 3\n",
    ),
    (
        b"events 1\ntake 1.0.a>1.0.c 1\ntake 1.0.c>1.0.b 1\ntake 1.0.c>in 1\ntake 2.0.c>1.1.a 1\n",
        "events 1\ntake 1.0.a>1.0.c 1\ntake 1.0.c>1.0.b 1\ntake 1.0.c>in 1\ntake 2.0.c>1.1.a 1\n",
    ),
    (
        b"events 1\ntake out>2.0.a 0\ntake 1.1.a>1.1.b 1\ntake 2.0.b>1.0.a 4611686018427387903\n",
        "events 1\ntake out>2.0.a 0\ntake 1.1.a>1.1.b 1\ntake 2.0.b>1.0.a 4611686018427387903\n",
    ),
    (
        b"events 1\nkill 1.0.a\naskstop 2.0.b\naskback 1.1.b",
        "events 1\nkill 1.0.a\naskstop 2.0.b\naskback 1.1.b\n",
    ),
    (
        b"events 1\npull in 1.1.a\npull 1.1.a 2.0.b 2\npull 2.0.b out 1\n",
        "events 1\npull in 1.1.a\npull 1.1.a 2.0.b\npull 1.1.a 2.0.b\npull 2.0.b out\n",
    ),
    (
        b"events 1\nmake\nmake\n# make\nwork in",
        "events 1\nmake\nmake\nwork in\n",
    ),
];

// Of a plan of two partitions that has a mark after every second row: the stamp, the bucket and the partition of each.
const MOVES: &[Case] = &[
    (b"moves 1", ""),
    (b"\n # a comment\r\n\tmoves  1\r\n\n# moves 2\n", ""),
    (b"moves 1\nat 2 bucket 7 to 0\n", "2 7 0\n"),
    (
        b"moves 1\nat 0002 bucket 00 to 01\nat 2 bucket 63 to 1",
        "2 0 1\n2 63 1\n",
    ),
    (b"moves 1\nat 1000000 bucket 1 to 1\n", "1000000 1 1\n"),
    (
        b"moves 1\nat 2 bucket 7 to 0\nat 4 bucket 7 to 1\nat 4 bucket 7 to 0\n",
        "2 7 0\n4 7 1\n4 7 0\n",
    ),
    (b"moves 1\n\n \n at\t2  bucket 7 to 0 \n", "2 7 0\n"),
];

// Whether this is what a text says.
fn says(
    rt: &impl Abort,
    alloc: Global,
    kind: Kind,
    text: &[u8],
    wanted: &str,
) -> Result<bool, Fail> {
    let found = canonical(rt, alloc, kind, text)?;
    Ok(found.as_slice() == wanted.as_bytes())
}

// The first text that says something else.
fn first_wrong(
    rt: &impl Abort,
    alloc: Global,
    kind: Kind,
    cases: &[Case],
) -> Result<Option<usize>, Fail> {
    for (place, (text, wanted)) in cases.iter().enumerate() {
        if !says(rt, alloc, kind, text, wanted)? {
            return Ok(Some(place));
        }
    }
    Ok(None)
}

#[test]
fn writes_the_plan_that_it_read(rt: HostRuntime) -> Result<(), Fail> {
    none_is_wrong(first_wrong(&rt, rt.alloc(), Kind::Plan, PLANS)?)
}

#[test]
fn writes_the_join_that_it_read(rt: HostRuntime) -> Result<(), Fail> {
    none_is_wrong(first_wrong(&rt, rt.alloc(), Kind::Plan, JOINS)?)
}

#[test]
fn writes_the_script_that_it_read(rt: HostRuntime) -> Result<(), Fail> {
    none_is_wrong(first_wrong(&rt, rt.alloc(), Kind::Script, SCRIPTS)?)
}

#[test]
fn writes_the_events_that_it_read(rt: HostRuntime) -> Result<(), Fail> {
    none_is_wrong(first_wrong(&rt, rt.alloc(), Kind::Events, EVENTS)?)
}

#[test]
fn writes_the_moves_that_it_read(rt: HostRuntime) -> Result<(), Fail> {
    none_is_wrong(first_wrong(&rt, rt.alloc(), Kind::Moves, MOVES)?)
}
