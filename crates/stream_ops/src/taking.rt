// How each operator takes a row of a key: what it answers, and what it keeps then. Of a row that is
// refused nothing is kept, and nothing is answered.
ghost use Rattle.keyed_store.specs.Store.{changed};
ghost use Rattle.std.specs.BTreeMap.{insert_entry};
ghost use Rattle.std.specs.Map.{lookup};
ghost use Rattle.std.specs.Prelude.{◌≡◌, ◌≤◌, ◌≤ℤ◌, ◌+◌, ◌++◌, ◌∷◌, [], pos, if◌then◌else◌, OnErr, OnOk, length, unwrap_or};
ghost use Rattle.op_spec.specs.Compares.{holds};
ghost use Rattle.op_spec.specs.Keys.{is_key, key_cmp};
ghost use Rattle.op_spec.specs.Times.{IsTime};
ghost use Rattle.stream_ops.specs.Entries.{all_told, told_last};
ghost use Rattle.op_spec.specs.Limits.{max_window_seconds};
ghost use Rattle.stream_ops.specs.Steps.{closed_by, last_with, no_sums, opened_by, sums_last, told_closed, told_crossing, total_with, window_with};
ghost use Rattle.stream_ops.specs.Sums.{sums_row};
ghost use Rattle.stream_ops.specs.View.{AreLast, IsAnySums, IsRight, IsWindow};
ghost use Rattle.tuple_edge.specs.Row.{column_of};

use crate::kept::{
    add_crossing, add_last_row, add_row, add_to_sums, add_to_window, add_window, last_sums, sums_at,
};
use crate::{Compare, OpenWindow, Sums};
use circular_buffer::HeapCircularBuffer;
use keyed_store::KeyedStore;
use std::alloc::Global;
use tuple_edge::{Column, Key, OutOfMemory, Row};

// A row passes where its column compares so with the limit.
pub(crate) fn take_passing(
    column: Column,
    compare: Compare,
    limit: i64,
    row: &Row,
    out: &mut Vec<Row>,
) -> Result<(), OutOfMemory>
    ensures answers { OnOk result (out.new.items ≡ out.old.items ++ (if holds compare (column_of column row.now) limit then row.now ∷ [] else [])) }
    ensures few { OnOk result (length out.new.items ≤ length out.old.items + 1) }
    ensures err { OnErr result (out.new.items ≡ out.old.items) }
{
    if compare.holds(row.get(column), limit) {
        out.push(*row)?;
    }
    Ok(())
}

// A row is answered with its key's sums, its own amounts among them.
pub(crate) fn take_total(
    totals: &mut KeyedStore<Key, Sums>,
    key: Key,
    row: &Row,
    out: &mut Vec<Row>,
) -> Result<(), OutOfMemory>
    requires { IsRight IsAnySums totals.old }
    ensures answers { OnOk result (out.new.items ≡ out.old.items ++ sums_row row.now.time key (total_with (lookup (is_key key) totals.old.kept) row.now) ∷ []) }
    ensures few { OnOk result (length out.new.items ≤ length out.old.items + 1) }
    ensures keeps { OnOk result (totals.new ≡ changed totals.old (insert_entry key_cmp totals.old.kept key (total_with (lookup (is_key key) totals.old.kept) row.now))) }
    ensures right { IsRight IsAnySums totals.new }
    ensures old { totals.new.old ≡ totals.old.old }
    ensures err { OnErr result ((totals.new ≡ totals.old) × (out.new.items ≡ out.old.items)) }
{
    out.reserve(1)?;
    let sums = add_to_sums(totals, key, row)?;
    add_row(out, sums.row(row.time, &key));
    Ok(())
}

// A row is answered with the sums of its key's last rows, the newest of which it is.
pub(crate) fn take_last(
    alloc: Global,
    last_rows: &mut KeyedStore<Key, HeapCircularBuffer<Sums>>,
    count: &mut u64,
    key: Key,
    rows: u32,
    row: &Row,
    out: &mut Vec<Row>,
) -> Result<(), OutOfMemory>
    requires right { IsRight (AreLast rows) last_rows.old }
    requires rows { 1 ≤ rows }
    requires count { count.old ≡ length (all_told told_last last_rows.old.kept) }
    ensures answers { OnOk result (out.new.items ≡ out.old.items ++ sums_row row.now.time key (sums_last (lookup (is_key key) last_rows.new.kept)) ∷ []) }
    ensures few { OnOk result (length out.new.items ≤ length out.old.items + 1) }
    ensures keeps { OnOk result (last_rows.new ≡ changed last_rows.old (insert_entry key_cmp last_rows.old.kept key (last_with rows (lookup (is_key key) last_rows.old.kept) row.now))) }
    ensures right { IsRight (AreLast rows) last_rows.new }
    ensures count { count.new ≡ length (all_told told_last last_rows.new.kept) }
    ensures old { last_rows.new.old ≡ last_rows.old.old }
    ensures err { OnErr result ((last_rows.new ≡ last_rows.old) × (count.new ≡ count.old) × (out.new.items ≡ out.old.items)) }
{
    out.reserve(1)?;
    add_last_row(alloc, last_rows, count, key, rows, &Sums::of(row))?;
    add_row(out, last_sums(last_rows, &key).row(row.time, &key));
    Ok(())
}

// A row is answered with the window that it closes, if any.
pub(crate) fn take_window(
    windows: &mut KeyedStore<Key, OpenWindow>,
    key: Key,
    width: i64,
    row: &Row,
    out: &mut Vec<Row>,
) -> Result<(), OutOfMemory>
    requires right { IsRight (IsWindow width) windows.old }
    requires timely { IsTime row.now.time }
    requires width { (pos 1 ≤ℤ width) × (width ≤ℤ max_window_seconds) }
    ensures answers { OnOk result (out.new.items ≡ out.old.items ++ told_closed key (closed_by (lookup (is_key key) windows.old.kept) (opened_by width row.now))) }
    ensures few { OnOk result (length out.new.items ≤ length out.old.items + 1) }
    ensures keeps { OnOk result (windows.new ≡ changed windows.old (insert_entry key_cmp windows.old.kept key (window_with (lookup (is_key key) windows.old.kept) (opened_by width row.now) row.now))) }
    ensures right { IsRight (IsWindow width) windows.new }
    ensures old { windows.new.old ≡ windows.old.old }
    ensures err { OnErr result ((windows.new ≡ windows.old) × (out.new.items ≡ out.old.items)) }
{
    out.reserve(1)?;
    let closed = add_to_window(windows, key, width, row)?;
    add_window(out, &closed, &key);
    Ok(())
}

// A row is answered with its key's sums, its own amounts among them, where the value crosses the
// limit.
pub(crate) fn take_crossing(
    totals: &mut KeyedStore<Key, Sums>,
    key: Key,
    limit: i64,
    row: &Row,
    out: &mut Vec<Row>,
) -> Result<(), OutOfMemory>
    requires { IsRight IsAnySums totals.old }
    ensures answers { OnOk result (out.new.items ≡ out.old.items ++ told_crossing limit key row.now.time (unwrap_or (lookup (is_key key) totals.old.kept) no_sums) (total_with (lookup (is_key key) totals.old.kept) row.now)) }
    ensures few { OnOk result (length out.new.items ≤ length out.old.items + 1) }
    ensures keeps { OnOk result (totals.new ≡ changed totals.old (insert_entry key_cmp totals.old.kept key (total_with (lookup (is_key key) totals.old.kept) row.now))) }
    ensures right { IsRight IsAnySums totals.new }
    ensures old { totals.new.old ≡ totals.old.old }
    ensures err { OnErr result ((totals.new ≡ totals.old) × (out.new.items ≡ out.old.items)) }
{
    out.reserve(1)?;
    let before = sums_at(totals, &key);
    let after = add_to_sums(totals, key, row)?;
    add_crossing(out, &before, &after, limit, row.time, &key);
    Ok(())
}
