// What the entries of a move make: the merge, the buffers and the operator's state.
ghost use Rattle.ack_buffer.specs.Buffer.{produced_on, starting_at};
ghost use Rattle.catch_up.specs.Fold.{AllRising, IsRising};
ghost use Rattle.catch_up.specs.Rebuild.{AllNext, IsNextOf, all_offered, buffer_of, buffers_in, buffers_step, count_in, count_step, folded_below, heads_step, keyed_in, keyed_step, lows_in, marks_in, marks_step, merge_in, without_spare};
ghost use Rattle.op_spec.specs.Spec.{IsSpec};
ghost use Rattle.stream_ops.specs.State.{rebuilt};
ghost use Rattle.std.specs.List.{range_with_len};
ghost use Rattle.std.specs.Prelude.{◌≡◌, ◌≤◌, ◌<◌, ◌-◌, ◌++◌, ◌∷◌, ◌↔◌, [], None, IfOk, IsTrue, OnOk, fold, length, map, min, slice_index_or, slice_set};

use crate::held::Held;
use ack_buffer::AckBuffer;
use merge_order::Merge;
use std::alloc::Global;
use stream_ops::{OpSpec, OpState};
use tuple_edge::{Entry, Item, NUMBER_LIMIT, OutOfMemory};

// Sets a mark, where the in-edge is there.
fn set_mark(marks: &mut [u64], at: usize, upto: u64)
    ensures { marks.new ≡ slice_set marks.old at upto }
{
    if at < marks.len() {
        marks[at] = upto;
    }
}

// Lowers a mark by an item that waits, where the in-edge is there.
fn lower_mark(marks: &mut [u64], at: usize)
    ensures { marks.new ≡ slice_set marks.old at (slice_index_or marks.old at 0 - 1) }
{
    if at < marks.len() {
        marks[at] = marks[at].saturating_sub(1);
    }
}

// Notes the mark of an in-edge, or that one item of it waits.
fn note_mark(marks: &mut [u64], entry: &Entry)
    ensures { marks.new ≡ marks_step marks.old entry.now }
{
    match *entry {
        Entry::Mark { edge, upto } => set_mark(marks, edge as usize, upto),
        Entry::Head { edge, .. } => lower_mark(marks, edge as usize),
        _ => {}
    }
}

// The marks of the in-edges, less the items that wait.
fn marks_in(alloc: Global, edges: u32, entries: &[Entry]) -> Result<Vec<u64>, OutOfMemory>
    ensures marks { IfOk result (λ marks. marks.items ≡ marks_in edges entries.now) }
    ensures edges { IfOk result (λ marks. length marks.items ≡ edges) }
{
    let mut marks = vec![in alloc; 0; edges as usize]?;
    for entry in entries {
        note_mark(&mut marks, entry);
    }
    Ok(marks)
}

// The count that one entry tells.
fn noted_count(count: u64, entry: &Entry) -> u64
    ensures { result ≡ count_step count entry.now }
{
    match *entry {
        Entry::Count { count } => count,
        _ => count,
    }
}

// How many items were merged.
fn count_in(entries: &[Entry]) -> u64
    ensures { result ≡ count_in entries.now }
{
    let mut count = 0;
    for entry in entries {
        count = noted_count(count, entry);
    }
    count
}

// Offers an item that waits, where its in-edge is there.
fn offer_head(merge: &mut Merge, entry: &Entry) -> Result<(), OutOfMemory>
    requires { length merge.old.waiting ≡ length merge.old.marks }
    ensures offers { OnOk result (merge.new ≡ heads_step merge.old entry.now) }
{
    let Entry::Head { edge, number, item } = *entry else {
        return Ok(());
    };
    if edge >= merge.edges() {
        return Ok(());
    }
    let _offer = merge.offer(edge, number, item)?;
    Ok(())
}

// Offers the items that wait.
fn offer_heads(merge: &mut Merge, entries: &[Entry]) -> Result<(), OutOfMemory>
    requires { length merge.old.waiting ≡ length merge.old.marks }
    ensures offers { OnOk result (merge.new ≡ fold heads_step merge.old entries.now) }
    ensures edges { OnOk result (length merge.new.marks ≡ length merge.old.marks) }
{
    for entry in entries {
        offer_head(merge, entry)?;
    }
    Ok(())
}

/// The merge that entries tell of.
pub(crate) fn merge_of(alloc: Global, edges: u32, entries: &[Entry]) -> Result<Merge, OutOfMemory>
    requires { 1 ≤ edges }
    ensures merge { IfOk result (λ merge. merge ≡ merge_in edges entries.now) }
    ensures edges { IfOk result (λ merge. length merge.marks ≡ edges) }
{
    let marks = marks_in(alloc, edges, entries)?;
    let mut merge = Merge::starting(alloc, &marks, count_in(entries))?;
    offer_heads(&mut merge, entries)?;
    Ok(merge)
}

// Produces an item again.
fn produce_again(buffer: &mut AckBuffer, item: Item) -> Result<(), OutOfMemory>
    ensures { OnOk result (without_spare buffer.new ≡ without_spare (produced_on buffer.old item)) }
{
    // A number past the limit is answered as want of memory.
    if buffer.produced() >= NUMBER_LIMIT - 1 {
        return Err(OutOfMemory);
    }
    buffer.reserve(1)?;
    let _number = buffer.produce(item);
    Ok(())
}

// Begins a buffer.
fn begin_buffer(
    alloc: Global,
    buffers: &mut Vec<AckBuffer>,
    upto: u64,
    produced: u64,
) -> Result<(), OutOfMemory>
    ensures { OnOk result (map without_spare buffers.new.items ≡ map without_spare buffers.old.items ++ starting_at upto (min upto produced) ∷ []) }
{
    // A number past the limit is answered as want of memory.
    if upto >= NUMBER_LIMIT {
        return Err(OutOfMemory);
    }
    buffers.push(AckBuffer::starting(alloc, upto, produced.min(upto)))?;
    Ok(())
}

// Produces an item of a buffer again, where the buffer is there.
fn produce_at(buffers: &mut Vec<AckBuffer>, at: usize, item: Item) -> Result<(), OutOfMemory>
    ensures { OnOk result (map without_spare buffers.new.items
        ≡ slice_set (map without_spare buffers.old.items) at (without_spare (produced_on (buffer_of (map without_spare buffers.old.items) at) item))) }
{
    if at >= buffers.len() {
        return Ok(());
    }
    produce_again(&mut buffers[at], item)
}

// Begins a buffer, or produces an item of one again.
fn add_to_buffers(
    alloc: Global,
    buffers: &mut Vec<AckBuffer>,
    entry: &Entry,
) -> Result<(), OutOfMemory>
    ensures { OnOk result (map without_spare buffers.new.items ≡ buffers_step (map without_spare buffers.old.items) entry.now) }
{
    match *entry {
        Entry::Low { upto, produced, .. } => begin_buffer(alloc, buffers, upto, produced),
        Entry::Kept { edge, item, .. } => produce_at(buffers, edge as usize, item),
        _ => Ok(()),
    }
}

/// The buffers that entries tell of.
pub(crate) fn buffers_of(alloc: Global, entries: &[Entry]) -> Result<Vec<AckBuffer>, OutOfMemory>
    ensures { IfOk result (λ buffers. map without_spare buffers.items ≡ buffers_in entries.now) }
{
    let mut buffers = Vec::new(alloc);
    for entry in entries {
        add_to_buffers(alloc, &mut buffers, entry)?;
    }
    Ok(buffers)
}

/// Whether the lows that entries tell are those of the out-edges 0 to `edges` - 1, in order.
pub(crate) fn tell_lows(entries: &[Entry], edges: u32) -> bool
    ensures { IsTrue result ↔ (lows_in entries.now ≡ range_with_len 0 edges) }
{
    let mut told = 0;
    for entry in entries {
        let Entry::Low { edge, .. } = *entry else {
            continue;
        };
        if u64::from(edge) != told {
            return false;
        }
        told += 1;
    }
    told == u64::from(edges)
}

// Puts an entry of the operator back.
fn put_back(state: &mut OpState, entry: &Entry) -> Result<(), OutOfMemory>
    requires { state.old.old ≡ None }
    ensures adds { OnOk result (IsNextOf state.old.spec state.old.entries entry.now
        → state.new ≡ rebuilt state.old.spec (keyed_step state.old.entries entry.now)) }
    ensures settings { (state.new.spec ≡ state.old.spec) × (state.new.old ≡ None) }
{
    match *entry {
        Entry::Keyed { .. } => state.put_entry(*entry),
        _ => Ok(()),
    }
}

/// The operator's state that entries tell of, where they are those of one.
pub(crate) fn state_of(
    alloc: Global,
    spec: OpSpec,
    entries: &[Entry],
) -> Result<OpState, OutOfMemory>
    requires { IsSpec spec }
    ensures rebuilt { IfOk result (λ state. AllNext spec [] entries.now → state ≡ rebuilt spec (keyed_in entries.now)) }
    ensures settings { IfOk result (λ state. (state.spec ≡ spec) × (state.old ≡ None)) }
{
    let mut state = OpState::new(alloc, spec);
    for entry in entries {
        put_back(&mut state, entry)?;
    }
    Ok(state)
}

// Offers what is held of an in-edge.
fn fold_edge_in(merge: &mut Merge, edge: u32, held: &Held) -> Result<(), OutOfMemory>
    requires { edge < length merge.old.marks }
    ensures offers { OnOk result (merge.new ≡ all_offered edge merge.old held.now) }
    ensures rising { OnOk result (IsRising held.now) }
    ensures edges { OnOk result (length merge.new.marks ≡ length merge.old.marks) }
{
    for (number, item) in held.iter() {
        let _offer = merge.offer(edge, *number, *item)?;
    }
    Ok(())
}

/// Folds in what is held: what follows the marks without a gap is taken.
pub(crate) fn fold_in(merge: &mut Merge, held: &[Held]) -> Result<(), OutOfMemory>
    requires { length held.now ≡ length merge.old.marks }
    ensures folds { OnOk result (merge.new ≡ folded_below (length held.now) merge.old held.now) }
    ensures rising { OnOk result (AllRising held.now (length held.now)) }
{
    for edge in 0..merge.edges() {
        fold_edge_in(merge, edge, &held[edge as usize])?;
    }
    Ok(())
}
