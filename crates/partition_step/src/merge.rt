// The step: the next merged item, the operator's answer to it, and what is produced for it.
ghost use Rattle.flux_producer.specs.ProducerView.{contents_of};
ghost use Rattle.merge_order.specs.MergeView.{least};
ghost use Rattle.op_spec.specs.Times.{IsTimely};
ghost use Rattle.partition_step.specs.Answering.{HasParts, targets_of};
ghost use Rattle.partition_step.specs.Merging.{Merges};
ghost use Rattle.std.specs.Prelude.{◌≡◌, ◌<◌, ◌+◌, OnErr, OnOk, Some, length};
ghost use Rattle.stream_ops.specs.State.{most_by};
ghost use Rattle.tuple_edge.specs.Limits.{number_limit};

use crate::PartitionTask;
use crate::answer::{emit_answer, make_room};
use flux_consumer::Consumer;
use flux_producer::Producer;
use merge_order::Head;
use stream_ops::{OpSpec, OpState};
use tuple_edge::{Item, OutOfMemory, Row};

// Room for at most how many rows an item's answer needs.
fn answer_room(op: &OpSpec, state: &OpState, item: &Item) -> u64
    requires { state.now.spec ≡ op.now }
    ensures { result ≡ most_by state.now item.now }
{
    match item {
        Item::Row { .. } => op.most_rows(),
        Item::Mark { .. } => 0,
        Item::End { .. } => state.entry_count(),
    }
}

/// Merges the next item, which is that of this head, and produces what answers it. All room is made first:
/// after want of memory only the room of the edges, and of `rows`, may have changed. `rows` is where the
/// operator's answer is put; nothing of what was in it is used.
pub fn merge_next(
    consumer: &mut Consumer,
    state: &mut OpState,
    producer: &mut Producer,
    task: &PartitionTask,
    rows: &mut Vec<Row>,
    head: Head,
) -> Result<(), OutOfMemory>
    requires next { least consumer.old.merge.waiting ≡ Some head }
    requires fits { consumer.old.merge.count + 1 < number_limit }
    requires timely { IsTimely head.item }
    requires op { state.old.spec ≡ task.now.op }
    requires parts { HasParts task.now.next }
    requires targets { length producer.old.edges ≡ targets_of task.now.next }
    ensures merges { OnOk result (Merges task.now.next head.item
        (record { consumer = consumer.old; state = state.old; producer = producer.old })
        (record { consumer = consumer.new; state = state.new; producer = producer.new })) }
    ensures consumer { OnErr result (consumer.new ≡ consumer.old) }
    ensures state { OnErr result (state.new ≡ state.old) }
    ensures producer { OnErr result (contents_of producer.new ≡ contents_of producer.old) }
{
    let item = head.item;
    let room = answer_room(&task.op, state, &item).saturating_add(1);
    make_room(producer, room)?;
    rows.clear();
    state.step(item, rows)?;
    consumer.pass(&head);
    emit_answer(producer, &task.next, item, rows);
    Ok(())
}
