// What a replica has of its edges when its move begins, and what is rebuilt of them.
ghost use Rattle.std.specs.Prelude.{◌≡◌, ◌≤◌, ◌<◌, length};

use flux_consumer::Consumer;
use flux_producer::Producer;
use std::alloc::Global;
use std::process::Abort;
use tuple_edge::{Item, OutOfMemory};

// Takes an item of an edge.
fn take(consumer: &mut Consumer, edge: u32, number: u64) -> Result<(), OutOfMemory>
    requires { edge < length consumer.old.merge.marks }
    ensures { length consumer.new.merge.marks ≡ length consumer.old.merge.marks }
{
    let _offer = consumer.tuple(edge, number, Item::Mark { stamp: number })?;
    Ok(())
}

// Takes the first two items of the first in-edge.
fn take_two(consumer: &mut Consumer) -> Result<(), OutOfMemory>
    requires { 1 ≤ length consumer.old.merge.marks }
{
    take(consumer, 0, 1)?;
    take(consumer, 0, 2)
}

// Two in-edges: on the first one two items wait, and nothing on the other.
pub(crate) fn consumer(alloc: Global) -> Result<Consumer, OutOfMemory> {
    let mut consumer = Consumer::new(alloc, 2)?;
    take_two(&mut consumer)?;
    Ok(consumer)
}

// Produces an item on an edge.
fn emit(rt: &impl Abort, producer: &mut Producer, to: u32) -> Result<(), OutOfMemory> {
    producer.reserve(1)?;
    assert!(rt; to < producer.edges());
    assert!(rt; producer.buffer(to).produced() < 1000);
    let _number = producer.emit(to, Item::Mark { stamp: 1 });
    Ok(())
}

// Notes that the items of an edge are acknowledged up to a number.
fn ack(rt: &impl Abort, producer: &mut Producer, to: u32, upto: u64) {
    assert!(rt; to < producer.edges());
    assert!(rt; upto < 1000);
    producer.ack(to, upto);
}

// Two items are produced on the first out-edge, of which one is acknowledged.
fn emit_two(rt: &impl Abort, producer: &mut Producer) -> Result<(), OutOfMemory> {
    emit(rt, producer, 0)?;
    emit(rt, producer, 0)?;
    ack(rt, producer, 0, 1);
    Ok(())
}

// Two out-edges: of the first one an item is kept, and the second one is acknowledged up to 3, though
// nothing was produced on it.
pub(crate) fn producer(rt: &impl Abort, alloc: Global) -> Result<Producer, OutOfMemory> {
    let mut producer = Producer::new(alloc, 1, 0, 2, 2, true)?;
    emit_two(rt, &mut producer)?;
    ack(rt, &mut producer, 1, 3);
    Ok(producer)
}

// Whether an in-edge has this mark, and so many items wait on it.
pub(crate) fn has_taken(consumer: &Consumer, edge: u32, mark: u64, waiting: u64) -> bool {
    let merge = consumer.merge();
    edge < merge.edges() && merge.mark(edge) == mark && merge.waiting(edge) == waiting
}

// Whether an out-edge has these numbers, and keeps this item of the last number produced.
pub(crate) fn has_produced(
    producer: &Producer,
    edge: u32,
    low: u64,
    produced: u64,
    last: Option<Item>,
) -> bool {
    if edge >= producer.edges() {
        return false;
    }
    let buffer = producer.buffer(edge);
    buffer.low() == low && buffer.produced() == produced && buffer.get(produced) == last
}
