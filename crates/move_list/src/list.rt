// What a consumer and a producer hold, as entries.
ghost use Rattle.flux_producer.specs.ProducerView.{buffer_at};
ghost use Rattle.move_list.specs.Pieces.{AreFilled, IsFilled};
ghost use Rattle.move_list.specs.MoveList.{fixed_part, head_entries, kept_entries, low_entry, mark_entry};
ghost use Rattle.tuple_edge.specs.Entries.{each_below};
ghost use Rattle.std.specs.Prelude.{◌≡◌, ◌++◌, ◌<◌, IfOk, OnOk, length};

use flux_consumer::Consumer;
use flux_producer::Producer;
use merge_order::Merge;
use std::alloc::Global;
use tuple_edge::{Entry, OutOfMemory};

// Appends the mark of each in-edge.
fn add_marks(merge: &Merge, out: &mut Vec<Entry>) -> Result<(), OutOfMemory>
    ensures { OnOk result (out.new.items ≡ out.old.items ++ each_below (length merge.now.marks) (mark_entry merge.now)) }
{
    for edge in 0..merge.edges() {
        let upto = merge.mark(edge);
        out.push(Entry::Mark { edge, upto })?;
    }
    Ok(())
}

// Appends the items that wait on an in-edge.
fn add_heads_of(merge: &Merge, edge: u32, out: &mut Vec<Entry>) -> Result<(), OutOfMemory>
    requires { edge < length merge.now.marks }
    ensures { OnOk result (out.new.items ≡ out.old.items ++ head_entries merge.now edge) }
{
    let waiting = merge.waiting(edge);
    let used = merge.mark(edge).saturating_sub(waiting);
    for nth in 0..waiting {
        let Some(item) = merge.head(edge, nth) else {
            continue;
        };
        let number = used + nth + 1;
        out.push(Entry::Head { edge, number, item })?;
    }
    Ok(())
}

// Appends the items that wait on each in-edge.
fn add_heads(merge: &Merge, out: &mut Vec<Entry>) -> Result<(), OutOfMemory>
    ensures { OnOk result (out.new.items ≡ out.old.items ++ each_below (length merge.now.marks) (head_entries merge.now)) }
{
    for edge in 0..merge.edges() {
        add_heads_of(merge, edge, out)?;
    }
    Ok(())
}

// Appends the numbers of each out-edge.
fn add_lows(producer: &Producer, out: &mut Vec<Entry>) -> Result<(), OutOfMemory>
    ensures { OnOk result (out.new.items ≡ out.old.items ++ each_below (length producer.now.edges) (low_entry producer.now)) }
{
    for edge in 0..producer.edges() {
        let buffer = producer.buffer(edge);
        out.push(Entry::Low {
            edge,
            upto: buffer.low(),
            produced: buffer.produced(),
        })?;
    }
    Ok(())
}

// Appends the items that are kept for an out-edge.
fn add_kept_of(producer: &Producer, edge: u32, out: &mut Vec<Entry>) -> Result<(), OutOfMemory>
    requires { edge < length producer.now.edges }
    ensures entries { OnOk result (out.new.items ≡ out.old.items ++ kept_entries producer.now edge) }
    ensures filled { IsFilled (buffer_at producer.now edge) }
{
    let buffer = producer.buffer(edge);
    let low = buffer.low();
    for nth in 0..buffer.produced().saturating_sub(low) {
        let number = low + nth + 1;
        let Some(item) = buffer.get(number) else {
            continue;
        };
        out.push(Entry::Kept { edge, number, item })?;
    }
    Ok(())
}

// Appends the items that are kept for each out-edge.
fn add_kept(producer: &Producer, out: &mut Vec<Entry>) -> Result<(), OutOfMemory>
    ensures entries { OnOk result (out.new.items ≡ out.old.items ++ each_below (length producer.now.edges) (kept_entries producer.now)) }
    ensures filled { OnOk result (AreFilled producer.now) }
{
    for edge in 0..producer.edges() {
        add_kept_of(producer, edge, out)?;
    }
    Ok(())
}

/// What a move tells of a consumer and a producer.
pub fn fixed_part(
    alloc: Global,
    consumer: &Consumer,
    producer: &Producer,
) -> Result<Vec<Entry>, OutOfMemory>
    ensures entries { IfOk result (λ entries. entries.items ≡ fixed_part consumer.now.merge producer.now) }
    ensures filled { IfOk result (λ _. AreFilled producer.now) }
{
    let merge = consumer.merge();
    let mut entries = Vec::new(alloc);
    add_marks(merge, &mut entries)?;
    entries.push(Entry::Count {
        count: merge.count(),
    })?;
    add_heads(merge, &mut entries)?;
    add_lows(producer, &mut entries)?;
    add_kept(producer, &mut entries)?;
    Ok(entries)
}
