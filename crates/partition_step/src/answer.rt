// What is produced for a merged item: the operator's answer, and what is passed on.
ghost use Rattle.flux_producer.specs.ProducerView.{HasRoom, contents_of};
ghost use Rattle.node_edges.specs.OutEdges.{HasMade, MayMakeMore};
ghost use Rattle.pair_machine.specs.Edges.{edge_to, passed, stamped};
ghost use Rattle.partition_step.specs.Answering.{HasParts, TakesOne, target_at, targets_of};
ghost use Rattle.std.specs.Prelude.{◌≡◌, ◌<◌, ◌+◌, ◌++◌, ◌∷◌, [], OnOk, length};
ghost use Rattle.tuple_edge.specs.Item.{stamp_of};
ghost use Rattle.tuple_edge.specs.declared.item.Item.TheVariants as item;

use flux_producer::Producer;
use plan_reader::Stage;
use tuple_edge::{Item, OutOfMemory, Row, route};

/// Makes room on every edge for so many more items. Numbers of items past their limit are answered as want
/// of memory: no memory holds that many.
pub fn make_room(producer: &mut Producer, items: u64) -> Result<(), OutOfMemory>
    ensures contents { contents_of producer.new ≡ contents_of producer.old }
    ensures room { OnOk result (HasRoom producer.new.edges items) }
    ensures fits { OnOk result (MayMakeMore items producer.new) }
{
    producer.make_room(items)
}

// The target of a row: the partition of the next stage that routing names, or egress.
fn target_of(next: &Option<Stage>, row: &Row) -> u32
    requires { HasParts next.now }
    ensures value { result ≡ target_at next.now row.now }
    ensures there { result < targets_of next.now }
{
    match next {
        None => 0,
        Some(next) => route(row, next.by, next.parts),
    }
}

// Produces a row on the edge to its target.
fn emit_row(producer: &mut Producer, next: &Option<Stage>, stamp: u64, row: Row)
    requires parts { HasParts next.now }
    requires targets { length producer.old.edges ≡ targets_of next.now }
    requires room { HasRoom producer.old.edges 1 }
    requires fits { MayMakeMore 1 producer.old }
    ensures made { HasMade (λ t. edge_to next.now t (item.Row stamp row ∷ [])) producer.old producer.new }
    ensures less { TakesOne producer.old producer.new }
{
    let to = target_of(next, &row);
    let _number = producer.emit(to, Item::Row { stamp, row });
}

// Produces rows, each on the edge to its target.
fn emit_rows(producer: &mut Producer, next: &Option<Stage>, stamp: u64, rows: &[Row])
    requires parts { HasParts next.now }
    requires targets { length producer.old.edges ≡ targets_of next.now }
    requires room { HasRoom producer.old.edges (length rows.now + 1) }
    requires fits { MayMakeMore (length rows.now + 1) producer.old }
    ensures made { HasMade (λ t. edge_to next.now t (stamped stamp rows.now)) producer.old producer.new }
    ensures room { HasRoom producer.new.edges 1 }
    ensures fits { MayMakeMore 1 producer.new }
{
    for row in rows {
        emit_row(producer, next, stamp, *row);
    }
}

// A mark and an end are passed on, on every edge.
fn pass_on(producer: &mut Producer, item: Item)
    requires room { HasRoom producer.old.edges 1 }
    requires fits { MayMakeMore 1 producer.old }
    ensures { HasMade (λ t. passed item) producer.old producer.new }
{
    match item {
        Item::Row { .. } => {}
        Item::Mark { .. } | Item::End { .. } => producer.emit_to_all(item),
    }
}

// Produces the rows that answer an item, with its stamp, and then passes on a mark or an end.
pub(crate) fn emit_answer(producer: &mut Producer, next: &Option<Stage>, item: Item, rows: &[Row])
    requires parts { HasParts next.now }
    requires targets { length producer.old.edges ≡ targets_of next.now }
    requires room { HasRoom producer.old.edges (length rows.now + 1) }
    requires fits { MayMakeMore (length rows.now + 1) producer.old }
    ensures { HasMade (λ t. edge_to next.now t (stamped (stamp_of item) rows.now ++ passed item)) producer.old producer.new }
{
    emit_rows(producer, next, item.stamp(), rows);
    pass_on(producer, item);
}
