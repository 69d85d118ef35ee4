// One make at ingress: what is produced on the edges of each source.
ghost use Rattle.flux_producer.specs.ProducerView.{HasRoom, MayGrow, contents_of};
ghost use Rattle.ingress_egress.specs.IngressView.{AreWide, EachHasRoom, MayMake, MayMakeMore, producer_in};
ghost use Rattle.node_edges.specs.OutEdges.{HasMade};
ghost use Rattle.pair_machine.specs.CountLaws.{made_for};
ghost use Rattle.pair_machine.specs.Edges.{edge_to};
ghost use Rattle.pair_machine.specs.Ingress.{mark_after, row_of_source};
ghost use Rattle.std.specs.Prelude.{◌≡◌, ◌<◌, ◌≤◌, ◌∷◌, [], ℕ, OnErr, OnOk, Some, length, map};
ghost use Rattle.tuple_edge.specs.Limits.{edge_limit};
ghost use Rattle.tuple_edge.specs.declared.item.Item.TheVariants as item;

use flux_producer::Producer;
use plan_reader::Stage;
use tuple_edge::{Input, Item, OutOfMemory, Row, route};

// The row of an input goes on the one edge of its own source that routing names.
fn make_row(producer: &mut Producer, source: u32, first: &Stage, stamp: u64, input: Input)
    requires room { HasRoom producer.old.edges 2 }
    requires fits { MayMakeMore 2 producer.old }
    requires parts { 1 ≤ first.now.parts }
    requires targets { length producer.old.edges ≡ first.now.parts }
    ensures made { HasMade (λ t. edge_to (Some first.now) t (row_of_source source stamp input)) producer.old producer.new }
    ensures room { HasRoom producer.new.edges 1 }
    ensures fits { MayGrow producer.new.edges 1 }
{
    if input.source == source {
        let to = route(&input.row, first.by, first.parts);
        let row = input.row;
        let _number = producer.emit(to, Item::Row { stamp, row });
    }
}

// A mark, where one follows the input of this stamp, goes on all edges.
fn make_mark(producer: &mut Producer, mark: u64, stamp: u64)
    requires room { HasRoom producer.old.edges 1 }
    requires fits { MayGrow producer.old.edges 1 }
    requires mark { 1 ≤ mark }
    ensures made { HasMade (λ t. mark_after mark stamp) producer.old producer.new }
{
    if stamp % mark == 0 {
        producer.emit_to_all(Item::Mark { stamp });
    }
}

/// Produces what one make gives of a source: of an input its row and its mark, else the end.
pub fn make_at(
    producer: &mut Producer,
    source: u32,
    first: &Stage,
    mark: u64,
    stamp: u64,
    input: Option<Input>,
)
    requires room { HasRoom producer.old.edges 2 }
    requires fits { MayMakeMore 2 producer.old }
    requires parts { 1 ≤ first.now.parts }
    requires targets { length producer.old.edges ≡ first.now.parts }
    requires mark { 1 ≤ mark }
    ensures { HasMade (λ t. edge_to (Some first.now) t (made_for source mark stamp input)) producer.old producer.new }
{
    match input {
        None => producer.emit_to_all(Item::End { stamp }),
        Some(given) => {
            make_row(producer, source, first, stamp, given);
            make_mark(producer, mark, stamp);
        }
    }
}

// Produces what one make gives of each source.
fn make_each(
    producers: &mut Vec<Producer>,
    first: &Stage,
    mark: u64,
    stamp: u64,
    input: Option<Input>,
)
    requires few { length producers.old.items < edge_limit }
    requires wide { AreWide first.now.parts producers.old.items }
    requires room { EachHasRoom 2 producers.old.items }
    requires fits { MayMake 2 producers.old.items }
    requires parts { 1 ≤ first.now.parts }
    requires mark { 1 ≤ mark }
    ensures len { length producers.new.items ≡ length producers.old.items }
    ensures made { (q : ℕ) → q < length producers.old.items
        → HasMade (λ t. edge_to (Some first.now) t (made_for q mark stamp input))
        (producer_in producers.old.items q) (producer_in producers.new.items q) }
{
    for source in 0..producers.len() {
        make_at(
            &mut producers[source],
            source as u32,
            first,
            mark,
            stamp,
            input,
        );
    }
}

// Makes room for so many further items on every edge of every source.
fn reserve_each(producers: &mut Vec<Producer>, items: u64) -> Result<(), OutOfMemory>
    ensures contents { map contents_of producers.new.items ≡ map contents_of producers.old.items }
    ensures len { length producers.new.items ≡ length producers.old.items }
    ensures room { OnOk result (EachHasRoom items producers.new.items) }
{
    for source in 0..producers.len() {
        producers[source].reserve(items)?;
    }
    Ok(())
}

// Produces a row on the edge that routing names, after making room for it there.
fn emit_row(producer: &mut Producer, first: &Stage, stamp: u64, row: Row) -> Result<(), OutOfMemory>
    requires fits { MayMakeMore 2 producer.old }
    requires parts { 1 ≤ first.now.parts }
    requires targets { length producer.old.edges ≡ first.now.parts }
    ensures made { OnOk result (HasMade (λ t. edge_to (Some first.now) t (item.Row stamp row ∷ [])) producer.old producer.new) }
    ensures unchanged { OnErr result (producer.new ≡ producer.old) }
{
    let to = route(&row, first.by, first.parts);
    producer.reserve_on(to, 1)?;
    let _number = producer.emit(to, Item::Row { stamp, row });
    Ok(())
}

// Produces the row of an input that no mark follows: no other edge, and no other source, is touched.
fn make_row_alone(
    producers: &mut Vec<Producer>,
    first: &Stage,
    stamp: u64,
    input: Input,
) -> Result<(), OutOfMemory>
    requires wide { AreWide first.now.parts producers.old.items }
    requires fits { MayMake 2 producers.old.items }
    requires parts { 1 ≤ first.now.parts }
    ensures len { length producers.new.items ≡ length producers.old.items }
    ensures made { OnOk result ((q : ℕ) → q < length producers.old.items
        → HasMade (λ t. edge_to (Some first.now) t (row_of_source q stamp input))
        (producer_in producers.old.items q) (producer_in producers.new.items q)) }
    ensures unchanged { OnErr result (producers.new.items ≡ producers.old.items) }
{
    let source = input.source as usize;
    if source >= producers.len() {
        // Nobody sends the rows of a source that isn't there.
        return Ok(());
    }
    emit_row(&mut producers[source], first, stamp, input.row)
}

// Makes room on every edge for what one make gives of each source, and produces it.
fn make_on_all(
    producers: &mut Vec<Producer>,
    first: &Stage,
    mark: u64,
    stamp: u64,
    input: Option<Input>,
) -> Result<(), OutOfMemory>
    requires few { length producers.old.items < edge_limit }
    requires wide { AreWide first.now.parts producers.old.items }
    requires fits { MayMake 2 producers.old.items }
    requires parts { 1 ≤ first.now.parts }
    requires mark { 1 ≤ mark }
    ensures len { length producers.new.items ≡ length producers.old.items }
    ensures made { OnOk result ((q : ℕ) → q < length producers.old.items
        → HasMade (λ t. edge_to (Some first.now) t (made_for q mark stamp input))
        (producer_in producers.old.items q) (producer_in producers.new.items q)) }
    ensures contents { OnErr result (map contents_of producers.new.items ≡ map contents_of producers.old.items) }
{
    reserve_each(producers, 2)?;
    make_each(producers, first, mark, stamp, input);
    Ok(())
}

// Makes room for what one make gives of each source, and produces it: a row alone goes on its own edge,
// and only a mark or the end goes over all of them.
pub(crate) fn make_with_room(
    producers: &mut Vec<Producer>,
    first: &Stage,
    mark: u64,
    stamp: u64,
    input: Option<Input>,
) -> Result<(), OutOfMemory>
    requires few { length producers.old.items < edge_limit }
    requires wide { AreWide first.now.parts producers.old.items }
    requires fits { MayMake 2 producers.old.items }
    requires parts { 1 ≤ first.now.parts }
    requires mark { 1 ≤ mark }
    ensures len { length producers.new.items ≡ length producers.old.items }
    ensures made { OnOk result ((q : ℕ) → q < length producers.old.items
        → HasMade (λ t. edge_to (Some first.now) t (made_for q mark stamp input))
        (producer_in producers.old.items q) (producer_in producers.new.items q)) }
    ensures contents { OnErr result (map contents_of producers.new.items ≡ map contents_of producers.old.items) }
{
    let Some(given) = input else {
        return make_on_all(producers, first, mark, stamp, input);
    };
    if stamp % mark == 0 {
        return make_on_all(producers, first, mark, stamp, input);
    }
    make_row_alone(producers, first, stamp, given)
}
