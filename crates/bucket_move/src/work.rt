// All partitions at work, and their answers in the order of the rows.
ghost use Rattle.std.specs.Prelude.{ℕ, ◌≡◌, ◌<◌, ◌≤◌, ◌+◌, ◌++◌, ◌^◌, List, Option, All, OnErr, OnOk, flat_map, length, slice_index_or, true, vec_capacity, vec_len};
ghost use Rattle.std.specs.List.{list_any};
ghost use Rattle.std.specs.Option.{option_to_list};
ghost use Rattle.tuple_edge.specs.declared.row.Row.{Row};
ghost use Rattle.op_spec.specs.Times.{IsTime};
ghost use Rattle.plan_reader.specs.declared.stage.Stage.{Stage};
ghost use Rattle.op_spec.specs.declared.spec.OpSpec.{OpSpec};
ghost use Rattle.bucket_move.specs.BucketsView.{AllKeep, AllStand, keys_at, keys_kept};
ghost use Rattle.bucket_move.specs.ByKey.{is_keyed};
ghost use Rattle.bucket_move.specs.Limits.{buckets};
ghost use Rattle.bucket_move.specs.declared.partition.Partition.{Partition};
ghost use Rattle.bucket_move.specs.Working.{AllAnswered, AllHold, Works, first_answers, handed_over, kept_in, places_of, queues_in};

use crate::BUCKETS;
use crate::partition::{Partition, Place};
use std::thread::{Threads, for_each_mut};
use stream_ops::OpState;
use tuple_edge::{OutOfMemory, Row};

// A thread is worth its start for so many rows.
const ROWS_OF_A_THREAD: usize = 1_024;

// In how many threads so many rows are worked: one at least, and one for each partition at most.
fn threads_for(rows: usize, parts: usize) -> usize
    requires { 1 ≤ parts }
    ensures { 1 ≤ result }
{
    (rows / ROWS_OF_A_THREAD).clamp(1, parts)
}

// Whether memory ran out in a partition.
fn any_failed(parts: &[Partition]) -> bool
    ensures { result ≡ list_any (λ p. p.failed) parts.now }
{
    parts.iter().any(|partition| partition.failed)
}

// Each partition works its rows, all at once.
fn fork<R: Threads + Sync>(rt: &R, parts: &mut [Partition], rows: &[Row], places: &[Place])
    requires some { 1 ≤ length parts.old }
    requires rows { length places.now ≡ length rows.now }
    requires timely { All (λ r. IsTime r.time) rows.now }
    requires buckets { All (λ place. place.bucket < buckets) places.now }
    requires slots { All (λ p. length p.states.items ≡ buckets) parts.old }
    ensures { (part : ℕ) (d : Partition) → part < length parts.old
        → Works part rows.now places.now (slice_index_or parts.old part d) (slice_index_or parts.new part d) }
{
    let threads = threads_for(rows.len(), parts.len());
    for_each_mut(
        rt,
        parts,
        threads,
        &|part, partition: &mut Partition| { partition.work(part, rows, places) },
    );
}

// Works rows, each at its place, all partitions at once.
fn work_all<R: Threads + Sync>(
    rt: &R,
    parts: &mut [Partition],
    rows: &[Row],
    places: &[Place],
) -> Result<(), OutOfMemory>
    requires some { 1 ≤ length parts.old }
    requires rows { length places.now ≡ length rows.now }
    requires timely { All (λ r. IsTime r.time) rows.now }
    requires buckets { All (λ place. place.bucket < buckets) places.now }
    requires slots { All (λ states. length states ≡ buckets) (kept_in parts.old) }
    ensures slots { All (λ states. length states ≡ buckets) (kept_in parts.new) }
    ensures works { OnOk result ((stage : Stage) (table : List ℕ) (before : List Row) → is_keyed stage.by stage.op ≡ true
        → places.now ≡ places_of stage.by table rows.now → AllHold stage table before (kept_in parts.old)
        → AllHold stage table (before ++ rows.now) (kept_in parts.new)
        × AllAnswered places.now (first_answers stage.op before rows.now) (queues_in parts.new)) }
{
    fork(rt, parts, rows, places);
    if any_failed(parts) {
        Err(OutOfMemory)
    } else {
        Ok(())
    }
}

// Appends the answers of all partitions, in the order of the rows.
fn gather(parts: &mut [Partition], places: &[Place], emitted: &mut Vec<Row>)
    requires room { vec_len emitted.old + length places.now ≤ vec_capacity emitted.old }
    requires parts { All (λ place. place.part < length parts.old) places.now }
    ensures kept { kept_in parts.new ≡ kept_in parts.old }
    ensures gathers { (answers : List (Option Row)) → length answers ≡ length places.now → AllAnswered places.now answers (queues_in parts.old)
        → emitted.new.items ≡ emitted.old.items ++ flat_map option_to_list answers }
{
    for place in places {
        if let Some(row) = parts[place.part as usize].next_answer() {
            emitted.push_reserved(row);
        }
    }
}

// Works rows, each at its place, and appends the answers in the order of the rows.
pub(crate) fn work_in_order<R: Threads + Sync>(
    rt: &R,
    parts: &mut [Partition],
    rows: &[Row],
    places: &[Place],
    emitted: &mut Vec<Row>,
) -> Result<(), OutOfMemory>
    requires some { 1 ≤ length parts.old }
    requires rows { length places.now ≡ length rows.now }
    requires timely { All (λ r. IsTime r.time) rows.now }
    requires buckets { All (λ place. place.bucket < buckets) places.now }
    requires parts { All (λ place. place.part < length parts.old) places.now }
    requires slots { All (λ states. length states ≡ buckets) (kept_in parts.old) }
    requires room { vec_len emitted.old + length rows.now ≤ vec_capacity emitted.old }
    ensures slots { All (λ states. length states ≡ buckets) (kept_in parts.new) }
    ensures works { OnOk result ((stage : Stage) (table : List ℕ) (before : List Row) → is_keyed stage.by stage.op ≡ true
        → places.now ≡ places_of stage.by table rows.now → AllHold stage table before (kept_in parts.old)
        → AllHold stage table (before ++ rows.now) (kept_in parts.new)
        × (emitted.new.items ≡ emitted.old.items ++ flat_map option_to_list (first_answers stage.op before rows.now))) }
    ensures unchanged { OnErr result (emitted.new.items ≡ emitted.old.items) }
{
    work_all(rt, parts, rows, places)?;
    gather(parts, places, emitted);
    Ok(())
}

// Hands what a partition keeps of a bucket to another one. What was given nothing takes its place.
pub(crate) fn hand_over(parts: &mut [Partition], bucket: u32, from: u32, to: u32, unseen: OpState)
    requires from { from < length parts.old }
    requires to { to < length parts.old }
    requires bucket { bucket < buckets }
    requires slots { All (λ states. length states ≡ buckets) (kept_in parts.old) }
    ensures { kept_in parts.new ≡ handed_over (kept_in parts.old) bucket from to unseen }
{
    let state = parts[from as usize].exchange(bucket, unseen);
    let _ = parts[to as usize].exchange(bucket, state);
}

// How many keys the rows have whose bucket stands at a partition.
pub(crate) fn keys_at(table: &[u32], parts: &[Partition], part: u32) -> u64
    requires table { length table.now ≡ buckets }
    requires within { All (λ p. p < length parts.now) table.now }
    requires slots { All (λ states. length states ≡ buckets) (kept_in parts.now) }
    ensures stands { (stage : Stage) (rows : List Row) → is_keyed stage.by stage.op ≡ true → length rows < 2 ^ 64 → AllStand stage table.now (kept_in parts.now) rows
        → result ≡ keys_at stage table.now part rows }
    ensures kept { (spec : OpSpec) (rows : ℕ → List Row) → AllKeep spec table.now (kept_in parts.now) rows → result ≡ keys_kept spec table.now part rows }
{
    let mut keys: u64 = 0;
    for bucket in 0..BUCKETS {
        let at = table[bucket as usize];
        if at == part {
            keys = keys.saturating_add(parts[at as usize].key_count(bucket));
        }
    }
    keys
}
