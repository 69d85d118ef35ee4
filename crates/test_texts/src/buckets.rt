// Buckets of a plan, fed and moved after the tests that say beforehand that they may be.
ghost use Rattle.std.specs.Prelude.{All, IfOk, IsTrue};
ghost use Rattle.bucket_move.specs.ByKey.{is_by_key};
ghost use Rattle.op_spec.specs.Times.{IsTime};

use bucket_move::{BUCKETS, Buckets, is_by_key};
use op_spec::MAX_TIME_SECONDS;
use plan_reader::{Plan, read_plan};
use std::alloc::Global;
use std::process::Abort;
use std::test::Fail;
use std::thread::Threads;
use tuple_edge::Row;

/// A mark after every second row, and two partitions.
pub(crate) const TWO_PARTS: &[u8] = b"flux 1\nmark 2\nstage 1 parts 2 by account total account\n";

/// A plan that is by key.
pub(crate) fn plan_by_key(rt: &impl Abort, alloc: Global, text: &[u8]) -> Result<Plan, Fail>
    ensures { IfOk result (λ plan. IsTrue (is_by_key plan)) }
{
    let plan = read_plan(alloc, text)?;
    assert!(rt; is_by_key(&plan));
    Ok(plan)
}

// The buckets of a plan.
fn buckets(rt: &impl Abort, alloc: Global, text: &[u8]) -> Result<Buckets, Fail> {
    let plan = plan_by_key(rt, alloc, text)?;
    Ok(Buckets::new(alloc, &plan)?)
}

// Rows of times within the limits.
fn timely(rt: &impl Abort, rows: &[Row])
    ensures { All (λ r. IsTime r.time) rows.now }
{
    for row in rows {
        assert!(rt; 0 <= row.time && row.time <= MAX_TIME_SECONDS);
    }
}

// Feeds rows at once.
fn feed<R: Abort + Threads + Sync>(
    rt: &R,
    buckets: &mut Buckets,
    rows: &[Row],
) -> Result<(), Fail> {
    timely(rt, rows);
    assert!(rt; !buckets.failed());
    buckets.feed(rt, rows)?;
    Ok(())
}

// Moves a bucket.
fn shift(rt: &impl Abort, buckets: &mut Buckets, bucket: u32, to: u32) -> Result<(), Fail> {
    assert!(rt; bucket < BUCKETS && to < buckets.parts());
    assert!(rt; !buckets.failed());
    buckets.move_bucket(bucket, to)?;
    assert!(rt; buckets.part_of(bucket) == to);
    Ok(())
}

// Account 7 buys a share for a dollar.
fn bought(symbol: i64) -> Row {
    Row {
        time: 34_200,
        account: 7,
        symbol,
        qty: 1,
        value: 100,
    }
}

// Its total after so many of them.
fn total(qty: i64, value: i64) -> Row {
    Row {
        time: 34_200,
        account: 7,
        symbol: 0,
        qty,
        value,
    }
}

// How many keys the two partitions have.
fn keys(buckets: &Buckets) -> [u64; 2] {
    [buckets.keys(0), buckets.keys(1)]
}

// Two rows are fed, whose keys are then here.
fn feed_two<R: Abort + Threads + Sync>(
    rt: &R,
    buckets: &mut Buckets,
    here: [u64; 2],
) -> Result<(), Fail> {
    feed(rt, buckets, &[bought(1), bought(2)])?;
    assert!(rt; keys(buckets) == here);
    Ok(())
}

// Two rows, a move of their bucket, and two rows more.
fn feed_and_move<R: Abort + Threads + Sync>(rt: &R, buckets: &mut Buckets) -> Result<(), Fail> {
    feed_two(rt, buckets, [0, 1])?;
    shift(rt, buckets, 7, 0)?;
    feed_two(rt, buckets, [1, 0])
}

// The running total goes on over the move, and nothing is at a third partition.
fn went_on(buckets: &Buckets) -> bool {
    let totals = [total(1, 100), total(2, 200), total(3, 300), total(4, 400)];
    buckets.emitted() == totals.as_slice() && buckets.keys(2) == 0 && !buckets.failed()
}

#[test]
fn a_total_goes_on_where_its_bucket_went(rt: HostRuntime) -> Result<(), Fail> {
    let mut buckets = buckets(&rt, rt.alloc(), TWO_PARTS)?;
    assert!(rt; buckets.part_of(7) == 1);
    feed_and_move(&rt, &mut buckets)?;
    assert!(rt; went_on(&buckets));
    Ok(())
}
