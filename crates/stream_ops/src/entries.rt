// What is kept, as entries: all of them now, and those of the moment at which a watch began, one
// after another.
ghost use Rattle.std.specs.Option.{option_and_then, option_map};
ghost use Rattle.std.specs.Prelude.{◌≡◌, ◌+◌, ◌++◌, ◌<◌, ◌^◌, pos, IfSome, OnOk, length};
ghost use Rattle.keyed_store.specs.Store.{old_first, old_value};
ghost use Rattle.op_spec.specs.Keys.{key_cmp};
ghost use Rattle.stream_ops.specs.Entries.{all_told, bound_after, first_slot, last_after, next_slot, same_key_after, slots, sums_entry, told_last, told_total, told_window};

use crate::{OpenWindow, Sums};
use circular_buffer::HeapCircularBuffer;
use keyed_store::KeyedStore;
use std::ops::Bound;
use tuple_edge::{Entry, Key, OutOfMemory};

// The entry of sums at a slot of a key.
pub(crate) fn sums_entry(key: &Key, slot: u32, sums: &Sums, number: &i64) -> Entry
    ensures { result ≡ sums_entry key.now slot sums.now number.now }
{
    Entry::Keyed {
        key: *key,
        slot,
        qty: sums.qty,
        value: sums.value,
        window: *number,
    }
}

// Appends an entry for each key's sums, in the order of keys.
pub(crate) fn add_totals(
    totals: &KeyedStore<Key, Sums>,
    out: &mut Vec<Entry>,
) -> Result<(), OutOfMemory>
    ensures { OnOk result (out.new.items ≡ out.old.items ++ all_told told_total totals.now.kept) }
{
    for (key, sums) in totals.iter() {
        out.push(sums_entry(key, 0, sums, &0))?;
    }
    Ok(())
}

// Appends an entry for each open window, in the order of keys.
pub(crate) fn add_windows(
    windows: &KeyedStore<Key, OpenWindow>,
    out: &mut Vec<Entry>,
) -> Result<(), OutOfMemory>
    ensures { OnOk result (out.new.items ≡ out.old.items ++ all_told told_window windows.now.kept) }
{
    for (key, open) in windows.iter() {
        out.push(sums_entry(key, 0, &open.sums, &open.number))?;
    }
    Ok(())
}

// Appends an entry for each row kept of a key, oldest first.
fn add_slots(
    key: &Key,
    kept: &HeapCircularBuffer<Sums>,
    out: &mut Vec<Entry>,
) -> Result<(), OutOfMemory>
    ensures { OnOk result (out.new.items ≡ out.old.items ++ slots key.now 0 kept.now.items) }
{
    let mut slot: u32 = 0;
    for sums in kept.iter() {
        out.push(sums_entry(key, slot, sums, &0))?;
        let Some(next) = slot.checked_add(1) else {
            return Err(OutOfMemory);
        };
        slot = next;
    }
    Ok(())
}

// Appends the entries of each key's last rows, in the order of keys.
pub(crate) fn add_last_rows(
    last_rows: &KeyedStore<Key, HeapCircularBuffer<Sums>>,
    out: &mut Vec<Entry>,
) -> Result<(), OutOfMemory>
    ensures { OnOk result (out.new.items ≡ out.old.items ++ all_told told_last last_rows.now.kept) }
{
    for (key, kept) in last_rows.iter() {
        add_slots(key, kept, out)?;
    }
    Ok(())
}

// The keys above the last one told.
fn bound_after(after: &Option<(Key, u32)>) -> Bound<Key>
    ensures { result ≡ bound_after after.now }
{
    match after {
        Some((key, _)) => Bound::Excluded(*key),
        None => Bound::Unbounded,
    }
}

// The next entry of the sums when the watch began.
pub(crate) fn total_after(
    totals: &KeyedStore<Key, Sums>,
    after: &Option<(Key, u32)>,
) -> Option<Entry>
    ensures { result ≡ option_map (λ e. sums_entry e.0 0 e.1 (pos 0)) (old_first key_cmp (bound_after after.now) totals.now.old) }
{
    match totals.old_first(bound_after(after)) {
        Some((key, sums)) => Some(sums_entry(key, 0, sums, &0)),
        None => None,
    }
}

// The next entry of the open windows when the watch began.
pub(crate) fn window_after(
    windows: &KeyedStore<Key, OpenWindow>,
    after: &Option<(Key, u32)>,
) -> Option<Entry>
    ensures { result ≡ option_map (λ e. sums_entry e.0 0 e.1.sums e.1.number) (old_first key_cmp (bound_after after.now) windows.now.old) }
{
    match windows.old_first(bound_after(after)) {
        Some((key, open)) => Some(sums_entry(key, 0, &open.sums, &open.number)),
        None => None,
    }
}

// The entry after this slot of the key's last rows when the watch began.
fn slot_after(
    last_rows: &KeyedStore<Key, HeapCircularBuffer<Sums>>,
    key: &Key,
    slot: u32,
) -> Option<Entry>
    requires { (k : Key) → IfSome (old_value key_cmp k last_rows.now.old) (λ b. length b.items < 2 ^ 32) }
    ensures { result ≡ option_and_then (next_slot key.now slot) (old_value key_cmp key.now last_rows.now.old) }
{
    match last_rows.old_value(key) {
        Some(kept) => nth_entry(key, kept, slot),
        None => None,
    }
}

// The entry after this slot of a key's last rows.
fn nth_entry(key: &Key, kept: &HeapCircularBuffer<Sums>, slot: u32) -> Option<Entry>
    requires { length kept.now.items < 2 ^ 32 }
    ensures { result ≡ next_slot key.now slot kept.now }
{
    match kept.get(slot as usize + 1) {
        Some(sums) => Some(sums_entry(key, slot + 1, sums, &0)),
        None => None,
    }
}

// The next entry of the last rows when the watch began.
pub(crate) fn last_after(
    last_rows: &KeyedStore<Key, HeapCircularBuffer<Sums>>,
    after: &Option<(Key, u32)>,
) -> Option<Entry>
    requires { (k : Key) → IfSome (old_value key_cmp k last_rows.now.old) (λ b. length b.items < 2 ^ 32) }
    ensures { result ≡ last_after after.now last_rows.now.old }
{
    match same_key_after(last_rows, after) {
        Some(entry) => Some(entry),
        None => later_key_after(last_rows, after),
    }
}

// The next one of the same key.
fn same_key_after(
    last_rows: &KeyedStore<Key, HeapCircularBuffer<Sums>>,
    after: &Option<(Key, u32)>,
) -> Option<Entry>
    requires { (k : Key) → IfSome (old_value key_cmp k last_rows.now.old) (λ b. length b.items < 2 ^ 32) }
    ensures { result ≡ same_key_after after.now last_rows.now.old }
{
    match after {
        Some((key, slot)) => slot_after(last_rows, key, *slot),
        None => None,
    }
}

// The first one of a later key.
fn later_key_after(
    last_rows: &KeyedStore<Key, HeapCircularBuffer<Sums>>,
    after: &Option<(Key, u32)>,
) -> Option<Entry>
    ensures { result ≡ option_and_then (λ e. first_slot e.0 e.1) (old_first key_cmp (bound_after after.now) last_rows.now.old) }
{
    match last_rows.old_first(bound_after(after)) {
        Some((key, kept)) => first_entry(key, kept),
        None => None,
    }
}

fn first_entry(key: &Key, kept: &HeapCircularBuffer<Sums>) -> Option<Entry>
    ensures { result ≡ first_slot key.now kept.now }
{
    match kept.front() {
        Some(sums) => Some(sums_entry(key, 0, sums, &0)),
        None => None,
    }
}
