// Texts of events of groups of three: what is refused and where, and what each line says.
use crate::fixture::two;
use run_journal::EventsError;
use std::alloc::Global;
use std::test::Fail;
use trio_machine::{TrioEvent, TrioNode};
use trio_text::{TrioLined, push_trio_node, read_trio};

// Why a text is refused.
fn refusal(alloc: Global, text: &str) -> Result<Option<EventsError>, Fail> {
    let plan = two(alloc)?;
    Ok(read_trio(alloc, text.as_bytes(), &plan).err())
}

// Why a line is refused that is the third of its text.
fn refusal_of_line(alloc: Global, line: &str) -> Result<Option<EventsError>, Fail> {
    let text = format!(in alloc; "# groups\ntrio 1\n{line}\nno event\n")?;
    refusal(alloc, text.as_str())
}

#[test]
fn refuses_another_first_line(rt: HostRuntime) -> Result<(), Fail> {
    for text in [
        "",
        "# trio 1",
        "trio",
        "trio 2",
        "trio 01",
        "trio 1 1",
        "events 1\nmake",
        "make\ntrio 1",
    ] {
        assert_eq!(rt;
            refusal(rt.alloc(), text)?,
            Some(EventsError::Header),
            "{text}"
        );
    }
    Ok(())
}

#[test]
fn refuses_lines_of_another_form(rt: HostRuntime) -> Result<(), Fail> {
    let wanted = Some(EventsError::Grammar { line: 3 });
    for line in [
        "askstop 1.0.0",
        "askback 1.0.0",
        "Make",
        "make x",
        "make 1 1",
        "work",
        "work 1.0.a",
        "work 1.0.3",
        "work 1.0.00",
        "work 1.0",
        "work 1.0.0.0",
        "work 1234567890.0.0",
        "take in>1.0.0",
        "take in 1.0.0 1",
        "take in>1.0.0 1 1",
        "take in>9.0.0>out 1",
        "kill",
        "kill 1.0.0 1",
        "pull in",
        "pull in 1.0.b",
        "pull in 1.0.0 1 1",
    ] {
        assert_eq!(rt; refusal_of_line(rt.alloc(), line)?, wanted, "{line}");
    }
    Ok(())
}

#[test]
fn refuses_what_the_plan_has_not(rt: HostRuntime) -> Result<(), Fail> {
    let wanted = Some(EventsError::NoSuchNode { line: 3 });
    for line in [
        "work 0.0.0",
        "work 3.0.c x",
        "work 1.2.0",
        "take in>2.0.0 x",
        "take in>1.0.c 1",
        "take 1.0.0>1.0.1 1",
        "take 1.0.0>1.1.c 1",
        "take 1.0.0>in 1",
        "take 2.0.0>1.0.0 1",
        "take 1.0.0>out 1",
        "take 1.0.c>2.0.0 1",
        "take 2.0.c>in 1",
        "take out>1.0.0 1",
        "take in>out 1",
        "kill in",
        "kill out 1",
        "kill 1.0.c",
        "kill 2.1.2",
        "pull in 2.0.0",
        "pull in out 0",
        "pull 1.0.0 out",
        "pull 1.0.c 2.0.0",
        "pull 1.2.0",
    ] {
        assert_eq!(rt; refusal_of_line(rt.alloc(), line)?, wanted, "{line}");
    }
    Ok(())
}

#[test]
fn refuses_numbers_outside_their_limits(rt: HostRuntime) -> Result<(), Fail> {
    let wanted = Some(EventsError::Range { line: 3 });
    for line in [
        "make 0",
        "make 1000001 1",
        "work in 0",
        "take in>1.0.0 4611686018427387904 1",
        "pull in 1.0.2 1000001",
    ] {
        assert_eq!(rt; refusal_of_line(rt.alloc(), line)?, wanted, "{line}");
    }
    Ok(())
}

#[test]
fn reads_every_kind_of_link(rt: HostRuntime) -> Result<(), Fail> {
    for line in [
        "take in>1.1.2 1",
        "take 1.1.0>2.0.2 1",
        "take 2.0.1>out 1",
        "take 1.1.2>1.1.c 1",
        "take 1.1.c>1.1.2 1",
        "take 2.0.c>1.1.2 1",
        "take 1.0.c>in 1",
        "take out>2.0.2 4611686018427387903",
        "take in>1.0.0 0",
    ] {
        assert_eq!(rt;
            refusal_of_line(rt.alloc(), line)?,
            Some(EventsError::Grammar { line: 4 }),
            "{line}"
        );
    }
    Ok(())
}

// The last replica of the first group.
const LAST: TrioNode = TrioNode::Replica {
    stage: 1,
    part: 0,
    copy: 2,
};

// The controller of that group.
const CONTROL: TrioNode = TrioNode::Control { stage: 1, part: 0 };

const LINED: [TrioLined; 6] = [
    TrioLined {
        line: 3,
        event: TrioEvent::Make,
    },
    TrioLined {
        line: 3,
        event: TrioEvent::Make,
    },
    TrioLined {
        line: 4,
        event: TrioEvent::Pull {
            from: TrioNode::Ingress,
            to: LAST,
        },
    },
    TrioLined {
        line: 5,
        event: TrioEvent::Work { node: LAST },
    },
    TrioLined {
        line: 6,
        event: TrioEvent::Kill { node: LAST },
    },
    TrioLined {
        line: 8,
        event: TrioEvent::Take {
            from: LAST,
            to: CONTROL,
            index: 1,
        },
    },
];

#[test]
fn reads_every_kind_of_event(rt: HostRuntime) -> Result<(), Fail> {
    let text =
        b"\ntrio 1\nmake 2\npull in 1.0.2\r\nwork\t1.0.2 1\nkill 1.0.2\n\n take 1.0.2>1.0.c 1";
    let found = read_trio(rt.alloc(), text, &two(rt.alloc())?)?;
    assert!(rt; found.as_slice() == LINED.as_slice());
    Ok(())
}

#[test]
fn names_each_kind_of_node(rt: HostRuntime) -> Result<(), Fail> {
    let mut text = String::new(rt.alloc());
    for node in [TrioNode::Ingress, LAST, CONTROL, TrioNode::Egress] {
        push_trio_node(&mut text, node)?;
        text.push_str(" ")?;
    }
    assert_eq!(rt; text.as_str(), "in 1.0.2 1.0.c out ");
    Ok(())
}
