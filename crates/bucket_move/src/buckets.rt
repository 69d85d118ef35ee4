// The buckets of a stage: where each stands, what is kept of it, and the answers so far.
ghost use Rattle.std.specs.Prelude.{ℕ, ◌≡◌, ◌<◌, ◌≤◌, ◌++◌, ◌∷◌, [], List, All, IfOk, IsOk, IsTrue, OnErr, OnOk, false, is_err, replicate, slice_set};
ghost use Rattle.tuple_edge.specs.declared.row.Row.{Row};
ghost use Rattle.op_spec.specs.Spec.{IsSpec};
ghost use Rattle.op_spec.specs.Times.{IsTime};
ghost use Rattle.stream_ops.specs.Answers.{answers};
ghost use Rattle.stream_ops.specs.State.{unseen};
ghost use Rattle.plan_reader.specs.PlanView.{IsPlan};
ghost use Rattle.plan_reader.specs.declared.stage.Stage.{Stage};
ghost use Rattle.bucket_move.specs.BucketsView.{AllKeep, Call, Feeds, IsAfter, Moves, fed, keys_at, keys_kept, opening_table, part_of, table_after};
ghost use Rattle.bucket_move.specs.ByKey.{is_by_key};
ghost use Rattle.bucket_move.specs.Limits.{buckets};
ghost use Rattle.bucket_move.specs.Rows.{items_of};
ghost use Rattle.bucket_move.specs.Working.{kept_in};

use crate::BUCKETS;
use crate::partition::{Partition, places_of};
use crate::work::{self, hand_over, work_in_order};
use plan_reader::{Plan, Stage};
use std::alloc::Global;
use std::marker::Model;
use std::thread::Threads;
use stream_ops::{OpSpec, OpState};
use tuple_edge::{OutOfMemory, Row};

/// An operator that is by key, split by the buckets of its rows. Each bucket stands at a partition,
/// which keeps what the operator needs of the bucket's rows, and moves to another one whole.
///
/// Contracts see the stage, the partition of each bucket, what is kept, the answers so far, how many
/// rows were fed, and whether memory ran out.
#[derive(Drop)]
pub struct Buckets {
    alloc: Global,
    stage: Stage,
    table: Vec<u32>,
    parts: Vec<Partition>,
    emitted: Vec<Row>,
    count: u64,
    failed: bool,
}

impl Model for Buckets {
    ghost use Rattle.bucket_move.specs.BucketsView.{BucketsView, IsRight};
    ghost use Rattle.bucket_move.specs.Working.{kept_in};

    ghost Value = { BucketsView };

    ghost view = { λ b. record { stage = b.stage; table = b.table.items; kept = kept_in b.parts.items; emitted = b.emitted.items; count = b.count; failed = b.failed } };

    ghost invariant = { λ b. IsRight (record { stage = b.stage; table = b.table.items; kept = kept_in b.parts.items; emitted = b.emitted.items; count = b.count; failed = b.failed }) };
}

// The table at the opening.
fn opening_table(alloc: Global, parts: u32) -> Result<Vec<u32>, OutOfMemory>
    requires { 1 ≤ parts }
    ensures { IfOk result (λ table. table.items ≡ opening_table parts) }
{
    let mut table = Vec::with_capacity(alloc, BUCKETS as usize)?;
    for bucket in 0..BUCKETS {
        table.push(bucket % parts)?;
    }
    Ok(table)
}

// So many partitions that were given nothing.
fn unseen_parts(alloc: Global, spec: OpSpec, parts: u32) -> Result<Vec<Partition>, OutOfMemory>
    requires { IsSpec spec }
    ensures { IfOk result (λ ps. kept_in ps.items ≡ replicate parts (replicate buckets (unseen spec))) }
{
    let mut partitions = Vec::with_capacity(alloc, parts as usize)?;
    for _part in 0..parts {
        partitions.push(Partition::new(alloc, spec)?)?;
    }
    Ok(partitions)
}

impl Buckets {
    /// The buckets of a plan that is by key, at the opening: bucket b stands at partition b modulo the
    /// number of partitions.
    pub fn new(alloc: Global, plan: &Plan) -> Result<Buckets, OutOfMemory>
        requires { IsTrue (is_by_key plan.now) }
        ensures limits { IsPlan plan.now }
        ensures stage { IfOk result (λ b. plan.now.stages ≡ b.stage ∷ []) }
        ensures opening { IfOk result (λ b. IsAfter b.stage [] b) }
    {
        let stage = plan.stages()[0];
        let table = opening_table(alloc, stage.parts)?;
        let parts = unseen_parts(alloc, stage.op, stage.parts)?;
        Ok(Buckets {
            alloc,
            stage,
            table,
            parts,
            emitted: Vec::new(alloc),
            count: 0,
            failed: false,
        })
    }

    // Works rows, and appends their answers.
    fn take_all<R: Threads + Sync>(&mut self, rt: &R, rows: &[Row]) -> Result<(), OutOfMemory>
        requires timely { All (λ r. IsTime r.time) rows.now }
        ensures stands { OnOk result ((stage : Stage) (calls : List Call) → IsAfter stage calls self.old → IsAfter stage (calls ++ Feeds rows.now ∷ []) self.new) }
        ensures stage { self.new.stage ≡ self.old.stage }
        ensures table { self.new.table ≡ self.old.table }
        ensures failed { self.new.failed ≡ self.old.failed }
        ensures unchanged { OnErr result (self.new.emitted ≡ self.old.emitted) }
    {
        let Some(count) = self.count.checked_add(rows.len() as u64) else {
            return Err(OutOfMemory);
        };
        self.emitted.reserve(rows.len())?;
        let places = places_of(self.alloc, self.stage.by, &self.table, rows)?;
        work_in_order(rt, &mut self.parts, rows, &places, &mut self.emitted)?;
        self.count = count;
        Ok(())
    }

    /// Works rows, each at its bucket's partition, partitions at once where there are many rows, and appends the answers
    /// in the order of the rows. Where memory runs out, `emitted` stays as it was, and nothing can be fed
    /// or moved any more.
    pub fn feed<R: Threads + Sync>(&mut self, rt: &R, rows: &[Row]) -> Result<(), OutOfMemory>
        requires whole { self.old.failed ≡ false }
        requires timely { All (λ r. IsTime r.time) rows.now }

        // After any calls before it.
        ensures stands { OnOk result ((stage : Stage) (calls : List Call) → IsAfter stage calls self.old → IsAfter stage (calls ++ Feeds rows.now ∷ []) self.new) }
        ensures failed { self.new.failed ≡ is_err result }
        ensures unchanged { OnErr result (self.new.emitted ≡ self.old.emitted) }
        ensures stage { self.new.stage ≡ self.old.stage }
        ensures table { self.new.table ≡ self.old.table }
    {
        match self.take_all(rt, rows) {
            Ok(()) => Ok(()),
            Err(error) => {
                self.failed = true;
                Err(error)
            }
        }
    }

    /// Whether memory ran out in a feed. Then nothing can be fed or moved any more.
    pub fn failed(&self) -> bool
        ensures { result ≡ self.now.failed }
    {
        self.failed
    }

    /// Hands a bucket to a partition: what is kept of its rows goes there whole, and no entry of it is
    /// copied. It takes no memory, and always answers Ok.
    pub fn move_bucket(&mut self, bucket: u32, to: u32) -> Result<(), OutOfMemory>
        requires whole { self.old.failed ≡ false }
        requires bucket { bucket < buckets }
        requires to { to < self.old.stage.parts }

        // After any calls before it.
        ensures stands { OnOk result ((stage : Stage) (calls : List Call) → IsAfter stage calls self.old → IsAfter stage (calls ++ Moves bucket to ∷ []) self.new) }
        ensures table { OnOk result (self.new.table ≡ slice_set self.old.table bucket to) }
        ensures stage { self.new.stage ≡ self.old.stage }
        ensures emitted { self.new.emitted ≡ self.old.emitted }
        ensures failed { self.new.failed ≡ false }
        ensures unchanged { OnErr result (self.new ≡ self.old) }
        ensures done { IsOk result }
    {
        let from = self.table[bucket as usize];
        let unseen = OpState::new(self.alloc, self.stage.op);
        hand_over(&mut self.parts, bucket, from, to, unseen);
        self.table[bucket as usize] = to;
        Ok(())
    }

    /// In how many partitions the stage runs.
    pub fn parts(&self) -> u32
        ensures { result ≡ self.now.stage.parts }
    {
        self.stage.parts
    }

    /// The partition where a bucket stands.
    pub fn part_of(&self, bucket: u32) -> u32
        requires { bucket < buckets }
        ensures value { result ≡ part_of self.now.table bucket }
        ensures after { (stage : Stage) (calls : List Call) → IsAfter stage calls self.now → result ≡ part_of (table_after (opening_table stage.parts) calls) bucket }
        ensures there { result < self.now.stage.parts }
    {
        self.table[bucket as usize]
    }

    /// The answers to the rows fed, in the order of the rows.
    pub fn emitted(&self) -> &[Row]
        ensures value { result.now ≡ self.now.emitted }
        ensures after { (stage : Stage) (calls : List Call) → IsAfter stage calls self.now → result.now ≡ answers stage.op [] (items_of (fed calls)) }
    {
        &self.emitted
    }

    /// How many keys the rows fed have whose bucket stands at a partition. A `keep` has no keys. Where
    /// memory ran out in a feed, the rows are those that make what is kept there.
    pub fn keys(&self, part: u32) -> u64
        ensures after { (stage : Stage) (calls : List Call) → IsAfter stage calls self.now
            → result ≡ keys_at stage (table_after (opening_table stage.parts) calls) part (fed calls) }
        // Also where memory ran out: by any rows of each bucket that make what is kept of it.
        ensures kept { (rows : ℕ → List Row) → AllKeep self.now.stage.op self.now.table self.now.kept rows
            → result ≡ keys_kept self.now.stage.op self.now.table part rows }
    {
        work::keys_at(&self.table, &self.parts, part)
    }
}
