// What is kept for the keys, and how one more row changes it. Each call looks its key up in an
// ordered map, and takes memory for a new key, and for a key that changes first under a watch.
ghost use Rattle.keyed_store.specs.Store.{changed};
ghost use Rattle.std.specs.BTreeMap.{insert_entry};
ghost use Rattle.std.specs.List.{All};
ghost use Rattle.std.specs.Map.{lookup};
ghost use Rattle.std.specs.Prelude.{◌≡◌, ◌≤◌, ◌≤ℤ◌, ◌++◌, ◌∷◌, [], pos, ◌+◌, IfOk, OnErr, OnOk, Some, if◌then◌else◌, length, map, fold, unwrap_or, vec_capacity, vec_len};
ghost use Rattle.op_spec.specs.Keys.{is_key, key_cmp};
ghost use Rattle.op_spec.specs.Times.{IsTime};
ghost use Rattle.stream_ops.specs.Entries.{all_told, told_last};
ghost use Rattle.stream_ops.specs.Steps.{closed_by, has_room, last_added, no_sums, opened_by, sums_last, told_closed, told_crossing, told_window_row, total_with, window_with};
ghost use Rattle.stream_ops.specs.Sums.{sums_with};
ghost use Rattle.stream_ops.specs.View.{AreLast, IsRight};
ghost use Rattle.op_spec.specs.Limits.{max_window_seconds};

use crate::{OpenWindow, Sums};
use circular_buffer::HeapCircularBuffer;
use keyed_store::{Image, KeyedStore, Takes};
use std::alloc::{AllocError, Global};
use tuple_edge::{Key, OutOfMemory, Row};

impl Image for Sums {
    fn image(&self, _alloc: Global) -> Result<Sums, AllocError> {
        Ok(*self)
    }
}

impl Takes<Sums, Sums> for Sums {
    ghost after = { sums_with };

    ghost told = { sums_with };

    fn take(&mut self, more: Sums) -> Sums {
        *self = self.with(&more);
        *self
    }
}

impl Image for OpenWindow {
    fn image(&self, _alloc: Global) -> Result<OpenWindow, AllocError> {
        Ok(*self)
    }
}

// A key's sums so far.
pub(crate) fn sums_at(totals: &KeyedStore<Key, Sums>, key: &Key) -> Sums
    ensures { result ≡ unwrap_or (lookup (is_key key.now) totals.now.kept) no_sums }
{
    totals.get(key).copied().unwrap_or(Sums::none())
}

// Adds a row to the sums of its key, and gives them.
pub(crate) fn add_to_sums(
    totals: &mut KeyedStore<Key, Sums>,
    key: Key,
    row: &Row,
) -> Result<Sums, OutOfMemory>
    ensures sums { IfOk result (λ sums. sums ≡ total_with (lookup (is_key key) totals.old.kept) row.now) }
    ensures counts { OnOk result (totals.new ≡ changed totals.old (insert_entry key_cmp totals.old.kept key (total_with (lookup (is_key key) totals.old.kept) row.now))) }
    ensures err { OnErr result (totals.new ≡ totals.old) }
{
    if let Some(sums) = totals.change(&key, Sums::of(row))? {
        return Ok(sums);
    }
    let sums = Sums::none().with(&Sums::of(row));
    totals.insert(key, sums)?;
    Ok(sums)
}

// Appends a row where there is room for it.
pub(crate) fn add_row(out: &mut Vec<Row>, row: Row)
    requires { vec_len out.old + 1 ≤ vec_capacity out.old }
    ensures { out.new.items ≡ out.old.items ++ row ∷ [] }
{
    out.push_reserved(row);
}

// Appends the row that tells the sums after a row, where the size of exactly one of the values
// before and after it is above the limit.
pub(crate) fn add_crossing(
    out: &mut Vec<Row>,
    before: &Sums,
    after: &Sums,
    limit: i64,
    time: i64,
    key: &Key,
)
    requires { vec_len out.old + 1 ≤ vec_capacity out.old }
    ensures rows { out.new.items ≡ out.old.items ++ told_crossing limit key.now time before.now after.now }
    ensures few { length out.new.items ≤ length out.old.items + 1 }
{
    if before.is_above(limit) != after.is_above(limit) {
        out.push_reserved(after.row(time, key));
    }
}

// Appends the row that tells of the window that was closed, if any.
pub(crate) fn add_window(out: &mut Vec<Row>, closed: &Option<OpenWindow>, key: &Key)
    requires { vec_len out.old + 1 ≤ vec_capacity out.old }
    ensures rows { out.new.items ≡ out.old.items ++ told_closed key.now closed.now }
    ensures few { length out.new.items ≤ length out.old.items + 1 }
{
    if let Some(open) = closed {
        out.push_reserved(open.row(key));
    }
}

// Adds a row to the window of its key, and gives the one that it closes.
pub(crate) fn add_to_window(
    windows: &mut KeyedStore<Key, OpenWindow>,
    key: Key,
    width: i64,
    row: &Row,
) -> Result<Option<OpenWindow>, OutOfMemory>
    requires timely { IsTime row.now.time }
    requires width { (pos 1 ≤ℤ width) × (width ≤ℤ max_window_seconds) }
    ensures closed { IfOk result (λ closed. closed ≡ closed_by (lookup (is_key key) windows.old.kept) (opened_by width row.now)) }
    ensures counts { OnOk result (windows.new ≡ changed windows.old (insert_entry key_cmp windows.old.kept key (window_with (lookup (is_key key) windows.old.kept) (opened_by width row.now) row.now))) }
    ensures err { OnErr result (windows.new ≡ windows.old) }
{
    let next = OpenWindow::at(width, row);
    let had = windows.get(&key).copied();
    windows.insert(key, next.joining(&had, row))?;
    Ok(next.closing(&had))
}

// Appends a row for each open window, in the order of keys.
pub(crate) fn write_windows(
    windows: &KeyedStore<Key, OpenWindow>,
    out: &mut Vec<Row>,
) -> Result<(), OutOfMemory>
    ensures rows { OnOk result (out.new.items ≡ out.old.items ++ map (λ e. told_window_row e.0 e.1) windows.now.kept) }
    ensures found { OnOk result (All (λ e. lookup (is_key e.0) windows.now.kept ≡ Some e.1) windows.now.kept) }
    ensures err { OnErr result (out.new.items ≡ out.old.items) }
{
    if out.reserve(windows.len()).is_err() {
        return Err(OutOfMemory);
    }
    for (key, open) in windows.iter() {
        out.push_reserved(open.row(key));
    }
    Ok(())
}

// The sums of the rows kept, oldest first: they are added anew, since a sum that stopped at a
// bound can't be undone.
fn sum_up(kept: &HeapCircularBuffer<Sums>) -> Sums
    ensures { result ≡ fold sums_with no_sums kept.now.items }
{
    let mut sums = Sums::none();
    for more in kept.iter() {
        sums = sums.with(more);
    }
    sums
}

// The sums of a key's last rows.
pub(crate) fn last_sums(last_rows: &KeyedStore<Key, HeapCircularBuffer<Sums>>, key: &Key) -> Sums
    ensures { result ≡ sums_last (lookup (is_key key.now) last_rows.now.kept) }
{
    match last_rows.get(key) {
        Some(kept) => sum_up(kept),
        None => Sums::none(),
    }
}

// Puts one more among the last ones of its key, and counts how many there are for all keys.
pub(crate) fn add_last_row(
    alloc: Global,
    last_rows: &mut KeyedStore<Key, HeapCircularBuffer<Sums>>,
    total: &mut u64,
    key: Key,
    rows: u32,
    more: &Sums,
) -> Result<(), OutOfMemory>
    requires right { IsRight (AreLast rows) last_rows.old }
    requires rows { 1 ≤ rows }
    requires total { total.old ≡ length (all_told told_last last_rows.old.kept) }
    ensures pushes { OnOk result (last_rows.new ≡ changed last_rows.old (insert_entry key_cmp last_rows.old.kept key (last_added rows (lookup (is_key key) last_rows.old.kept) more.now))) }
    ensures total { total.new ≡ length (all_told told_last last_rows.new.kept) }
    ensures err { OnErr result ((last_rows.new ≡ last_rows.old) × (total.new ≡ total.old)) }
{
    let longer = count_with(*total, has_room(last_rows, &key, rows))?;
    put_last(alloc, last_rows, key, rows, more)?;
    *total = longer;
    Ok(())
}

// Whether the last rows of the key get one longer by one more.
fn has_room(last_rows: &KeyedStore<Key, HeapCircularBuffer<Sums>>, key: &Key, rows: u32) -> bool
    ensures { result ≡ has_room rows (lookup (is_key key.now) last_rows.now.kept) }
{
    match last_rows.get(key) {
        Some(kept) => kept.len() < rows as usize,
        None => true,
    }
}

// One more, if it is one more. There is no memory for more than a u64 can count.
fn count_with(total: u64, more: bool) -> Result<u64, OutOfMemory>
    ensures { IfOk result (λ sum. sum ≡ total + (if more then 1 else 0)) }
{
    if more {
        match total.checked_add(1) {
            Some(sum) => Ok(sum),
            None => Err(OutOfMemory),
        }
    } else {
        Ok(total)
    }
}

fn put_last(
    alloc: Global,
    last_rows: &mut KeyedStore<Key, HeapCircularBuffer<Sums>>,
    key: Key,
    rows: u32,
    more: &Sums,
) -> Result<(), OutOfMemory>
    ensures pushes { OnOk result (last_rows.new ≡ changed last_rows.old (insert_entry key_cmp last_rows.old.kept key (last_added rows (lookup (is_key key) last_rows.old.kept) more.now))) }
    ensures err { OnErr result (last_rows.new ≡ last_rows.old) }
{
    if last_rows.change(&key, *more)?.is_some() {
        return Ok(());
    }
    let mut kept = HeapCircularBuffer::with_capacity(alloc, rows as usize)?;
    kept.push_back(*more);
    last_rows.insert(key, kept)?;
    Ok(())
}
