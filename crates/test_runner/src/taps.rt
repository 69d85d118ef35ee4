// A run with a tap beside egress, which keeps what it was given.
ghost use Rattle.std.specs.Prelude.{◌≡◌};
ghost use Rattle.trade_text.specs.TradesView.{inputs_in};

use crate::answer::is_so;
use crate::nodes::{emitted, is_done};
use partition_runner::{FedNames, FreeGate, Left, Tap, Unwritten, ready_tapped, run_tapped};
use plan_nodes::NodeState;
use std::alloc::Global;
use std::marker::Brand;
use std::test::Fail;
use std::thread::Threads;
use test_kit::{ONE, Story, made};
use tuple_edge::{OutOfMemory, Row};

// Keeps all rows, as far as memory is found.
#[derive(Drop)]
struct Keeps {
    rows: Vec<Row>,
}

impl Tap for Keeps {
    ghost given = { λ t. t.rows.items };

    fn offer(&mut self, rows: &[Row]) {
        let Some(more) = rows.get(self.rows.len()..) else {
            return;
        };
        let _kept = self.rows.extend_from_slice(more);
    }
}

// A run of a story by 1 to 16 workers, with a tap that keeps all.
fn run_named<N: FedNames, R: Threads + Sync>(
    rt: &R,
    alloc: Global,
    story: &Story,
    threads: u32,
) -> Result<(Left<Unwritten>, Keeps), OutOfMemory>
    requires plan { story.now.plan ≡ N.plan }
    requires trades { inputs_in story.now.trades ≡ N.inputs }
    requires script { story.now.script ≡ N.script }
{
    if threads == 0 || threads > 16 {
        return Err(OutOfMemory);
    }
    let (plan, trades, script) = (&story.plan, &story.trades, &story.script);
    let tap = Keeps {
        rows: Vec::new(alloc),
    };
    let ready = ready_tapped::<N, Keeps>(alloc, plan, trades, script, threads, tap)?;
    let (ran, tap) = run_tapped(rt, alloc, plan, trades, script, 1_000_000, &FreeGate, ready);
    Ok((ran?, tap))
}

// The same, of names that are the story's.
fn run_kept<R: Threads + Sync>(
    rt: &R,
    alloc: Global,
    story: &Story,
    threads: u32,
) -> Result<(Left<Unwritten>, Keeps), OutOfMemory> {
    run_named::<Brand, R>(rt, alloc, story, threads)
}

// Whether a run is at its end, and what the tap kept is what egress emitted, which is all of the output.
fn kept_all(story: &Story, nodes: &[NodeState], kept: &[Row]) -> bool {
    is_done(nodes) && kept == emitted(nodes) && kept == story.output.as_slice()
}

fn keeps_all<R: Threads + Sync>(
    rt: &R,
    alloc: Global,
    story: &Story,
    threads: u32,
) -> Result<bool, OutOfMemory> {
    let (ran, tap) = run_kept(rt, alloc, story, threads)?;
    Ok(kept_all(story, &ran.nodes, &tap.rows))
}

fn one_and_four_keep<R: Threads + Sync>(
    rt: &R,
    alloc: Global,
    story: &Story,
) -> Result<bool, OutOfMemory> {
    Ok(keeps_all(rt, alloc, story, 1)? && keeps_all(rt, alloc, story, 4)?)
}

#[test]
fn a_tap_is_given_all_rows(rt: HostRuntime) -> Result<(), Fail> {
    let story = made(rt.alloc(), ONE, 3, 400, b"")?;
    let well = one_and_four_keep(&rt, rt.alloc(), &story);
    drop(story);
    is_so(well?)
}
