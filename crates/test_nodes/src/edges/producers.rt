// A producer, call by call.
use crate::answer::none_is_wrong;
use ack_buffer::AckBuffer;
use flux_producer::{Due, Producer};
use std::alloc::Global;
use std::process::Abort;
use std::test::Fail;
use tuple_edge::{Item, OutOfMemory};

// The item of a number on one of two edges.
fn item(to: u32, number: u64) -> Item {
    Item::Mark {
        stamp: number.wrapping_mul(2) + u64::from(to % 2),
    }
}

// A call of a producer, and what it gives.
#[derive(Clone, Copy)]
enum Call {
    // Produces the next item on an edge, which has this number.
    Emit(u32, u64),
    // Sends on an edge, to a replica, the item of a number; or sends nothing, as nothing is due.
    Send(u32, u32, u64),
    Rest,
    // The items of an edge are acknowledged up to a number.
    Ack(u32, u64),
    // A replica wants the items of an edge from a number on.
    Want(u32, u32, u64),
    // It is to lead under this term; the term under which it led last, and whether it leads.
    Lead(u64),
    Term(u64, bool),
    // How many out-edges there are.
    Edges(u32),
}

impl Call {
    // Whether a call gives what it has to.
    fn holds(self, producer: &mut Producer) -> Result<bool, OutOfMemory> {
        match self {
            Call::Emit(to, number) => emits(producer, to, number),
            Call::Send(to, copy, number) => Ok(sends(producer, Due { to, copy, number })),
            Call::Rest => Ok(producer.due().is_none() && producer.send_due().is_none()),
            Call::Ack(to, upto) => Ok(acknowledges(producer, to, upto)),
            Call::Want(to, copy, from) => Ok(wants(producer, to, copy, from)),
            Call::Lead(term) => {
                producer.lead(term);
                Ok(true)
            }
            Call::Term(term, leads) => Ok(producer.term() == term && producer.leads() == leads),
            Call::Edges(edges) => Ok(producer.edges() == edges),
        }
    }
}

fn emits(producer: &mut Producer, to: u32, number: u64) -> Result<bool, OutOfMemory> {
    producer.reserve(1)?;
    if to >= producer.edges() || producer.buffer(to).produced() >= 1000 {
        return Ok(false);
    }
    Ok(producer.emit(to, item(to, number)) == number)
}

fn sends(producer: &mut Producer, due: Due) -> bool {
    producer.due() == Some(due) && producer.send_due() == Some((due, item(due.to, due.number)))
}

fn acknowledges(producer: &mut Producer, to: u32, upto: u64) -> bool {
    if to >= producer.edges() || upto >= 1000 {
        return false;
    }
    producer.ack(to, upto);
    true
}

fn wants(producer: &mut Producer, to: u32, copy: u32, from: u64) -> bool {
    if to >= producer.edges() || copy >= producer.copies() {
        return false;
    }
    producer.want(to, copy, from);
    true
}

// The first of these calls of a producer that doesn't give what it has to.
fn first_wrong(producer: &mut Producer, calls: &[Call]) -> Result<Option<usize>, OutOfMemory> {
    for (place, call) in calls.iter().enumerate() {
        if !call.holds(producer)? {
            return Ok(Some(place));
        }
    }
    Ok(None)
}

// The same of a new producer of so many edges.
fn wrong_of_new(
    alloc: Global,
    edges: u32,
    leads: bool,
    calls: &[Call],
) -> Result<Option<usize>, OutOfMemory> {
    let mut producer = Producer::new(alloc, 1, 0, edges, 2, leads)?;
    let wrong = first_wrong(&mut producer, calls);
    drop(producer);
    wrong
}

// Each number goes to both replicas, and a new leader begins after what is acknowledged.
const BOTH_REPLICAS: &[Call] = &[
    Call::Emit(0, 1),
    Call::Emit(0, 2),
    Call::Send(0, 0, 1),
    Call::Send(0, 1, 1),
    Call::Send(0, 0, 2),
    Call::Send(0, 1, 2),
    Call::Rest,
    Call::Edges(1),
    Call::Ack(0, 1),
    Call::Lead(2),
    Call::Send(0, 0, 2),
    Call::Term(2, true),
];

#[test]
fn sends_each_number_to_both_replicas(rt: HostRuntime) -> Result<(), Fail> {
    none_is_wrong(wrong_of_new(rt.alloc(), 1, true, BOTH_REPLICAS)?)
}

// An edge on which three items are acknowledged, and the fourth is kept.
fn fourth(rt: &impl Abort, alloc: Global) -> Result<AckBuffer, OutOfMemory> {
    let mut buffer = AckBuffer::starting(alloc, 3, 3);
    buffer.reserve(1)?;
    let number = buffer.produce(item(0, 4));
    assert!(rt; number == 4);
    Ok(buffer)
}

fn edge_with_the_fourth(rt: &impl Abort, alloc: Global) -> Result<Vec<AckBuffer>, OutOfMemory> {
    Ok(vec![in alloc; fourth(rt, alloc)?]?)
}

// A producer that starts over a buffer sends nothing until it leads, and then what isn't acknowledged.
const AFTER_ACKNOWLEDGED: &[Call] = &[
    Call::Rest,
    Call::Lead(1),
    Call::Send(0, 0, 4),
    Call::Send(0, 1, 4),
    Call::Rest,
    Call::Emit(0, 5),
];

fn wrong_of_started(
    rt: &impl Abort,
    alloc: Global,
    calls: &[Call],
) -> Result<Option<usize>, OutOfMemory> {
    let edges = edge_with_the_fourth(rt, alloc)?;
    let mut producer = Producer::starting(alloc, 1, 0, 2, edges)?;
    let wrong = first_wrong(&mut producer, calls);
    drop(producer);
    wrong
}

#[test]
fn starts_after_what_is_acknowledged(rt: HostRuntime) -> Result<(), Fail> {
    none_is_wrong(wrong_of_started(&rt, rt.alloc(), AFTER_ACKNOWLEDGED)?)
}

// The least number comes first, of one number the lesser edge, and of one edge the lesser replica. An acknowledgement moves
// the cursors on, a replica that wants items moves its own back, but to nothing that is acknowledged; a higher term moves
// all of them back.
const TWO_EDGES: &[Call] = &[
    Call::Emit(1, 1),
    Call::Emit(0, 1),
    Call::Emit(1, 2),
    Call::Want(0, 0, 1),
    Call::Rest,
    Call::Lead(0),
    Call::Term(0, false),
    Call::Rest,
    Call::Lead(3),
    Call::Term(3, true),
    Call::Send(0, 0, 1),
    Call::Send(0, 1, 1),
    Call::Send(1, 0, 1),
    Call::Emit(0, 2),
    Call::Send(1, 1, 1),
    Call::Send(0, 0, 2),
    Call::Ack(1, 2),
    Call::Send(0, 1, 2),
    Call::Rest,
    Call::Want(0, 1, 2),
    Call::Send(0, 1, 2),
    Call::Rest,
    Call::Want(1, 0, 1),
    Call::Rest,
    Call::Emit(1, 3),
    Call::Want(1, 1, 9),
    Call::Send(1, 0, 3),
    Call::Lead(3),
    Call::Send(1, 1, 3),
    Call::Rest,
    Call::Ack(0, 1),
    Call::Lead(4),
    Call::Term(4, true),
    Call::Send(0, 0, 2),
    Call::Send(0, 1, 2),
    Call::Send(1, 0, 3),
    Call::Ack(1, 5),
    Call::Rest,
    Call::Emit(1, 4),
    Call::Emit(1, 5),
    Call::Rest,
    Call::Emit(1, 6),
    Call::Send(1, 0, 6),
    Call::Send(1, 1, 6),
    Call::Rest,
];

#[test]
fn sends_the_least_number_first(rt: HostRuntime) -> Result<(), Fail> {
    none_is_wrong(wrong_of_new(rt.alloc(), 2, false, TWO_EDGES)?)
}
