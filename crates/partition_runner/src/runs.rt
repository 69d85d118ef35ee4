// Runs: over rings, over any links, and with a tap beside egress; with written histories, and with unwritten ones.
ghost use mathlib.Core.List.{IsPrefix};
ghost use Rattle.node_tasks.specs.Timely.{AreTimely};
ghost use Rattle.pair_machine.specs.Output.{output};
ghost use Rattle.partition_runner.specs.Job.{AreWorkers, IsJobOf};
ghost use Rattle.partition_runner.specs.Ran.{IsLegalKept, IsLegalLeft, IsLegalRun, emitted_in};
ghost use Rattle.std.specs.Prelude.{◌≡◌, ◌<◌, [], IfOk, MatchResult, false};
ghost use Rattle.trade_text.specs.TradesView.{inputs_in};

use crate::feed::{Beforehand, Feed};
use crate::job::Job;
use crate::names::FedNames;
use crate::ran::{Left, Ran};
use crate::ready::{Ended, Ready, make_ready, run_ready};
use crate::rings::Rings;
use event_log::{Keeps, Log};
use failure_script::Script;
use linked_run::Gate;
use plan_nodes::opening_state;
use plan_reader::Plan;
use run_node::{Draws, Links, NoTap, Offers, Tap};
use std::alloc::Global;
use std::marker::Brand;
use std::thread::Threads;
use trade_text::Trades;
use tuple_edge::{NodeId, OutOfMemory};
use unwritten::Log as Unwritten;

/// A run that is ready, over rings, with a tap beside egress.
#[derive(Drop)]
pub struct Tapped<N: FedNames, T: Tap> {
    ready: Ready<N, Beforehand<N>, Unwritten, Rings, Offers<T>>,
}

// Makes what all nodes of a run need whose inputs are those of trades, all of which come to ingress beforehand.
fn ready_with<N: FedNames, K: Keeps + Send, M: Links, T: Draws + Send>(
    alloc: Global,
    plan: &Plan,
    trades: &Trades,
    threads: u32,
    links: &mut M,
    tap: T,
) -> Result<Ready<N, Beforehand<N>, K, M, T>, OutOfMemory>
    requires plan { plan.now ≡ N.plan }
    requires trades { inputs_in trades.now ≡ N.inputs }
    requires threads { 0 < threads }
    requires tap { T.given tap ≡ [] }
{
    let ingress = opening_state(alloc, plan, trades, NodeId::Ingress)?;
    let feed = Beforehand::nothing();
    make_ready(alloc, plan, ingress, feed, threads, links, tap)
}

// The times of the inputs of a run are within the limits.
fn times_of<N: FedNames>(trades: &Trades)
    requires { inputs_in trades.now ≡ N.inputs }
    ensures { AreTimely N.inputs }
{
    // This call's clause says so of the trades.
    let _rows = trades.rows();
}

/// Makes the nodes of a plan as they open, the rings between them and the board for so many workers, with a
/// tap beside egress. The names are those of the plan, its trades and the script.
pub fn ready_tapped<N: FedNames, T: Tap + Send>(
    alloc: Global,
    plan: &Plan,
    trades: &Trades,
    script: &Script,
    threads: u32,
    tap: T,
) -> Result<Tapped<N, T>, OutOfMemory>
    requires plan { plan.now ≡ N.plan }
    requires trades { inputs_in trades.now ≡ N.inputs }
    requires script { script.now ≡ N.script }
    requires workers { AreWorkers threads }
    requires tap { T.given tap ≡ [] }
{
    // Whoever makes it ready says under which script it will run.
    let _orders = script.orders();
    let ready = ready_with(alloc, plan, trades, threads, &mut Rings, Offers { tap })?;
    Ok(Tapped { ready })
}

// What a run comes to that is ready, over any links.
fn run_named<N: FedNames, K: Keeps + Send, M: Links, T: Draws + Send, R: Threads + Sync, G: Gate>(
    rt: &R,
    plan: &Plan,
    trades: &Trades,
    script: &Script,
    turns: u64,
    gate: &G,
    links: &mut M,
    ready: Ready<N, Beforehand<N>, K, M, T>,
) -> (Result<Left<K>, OutOfMemory>, T)
    requires plan { plan.now ≡ N.plan }
    requires trades { inputs_in trades.now ≡ N.inputs }
    requires script { script.now ≡ N.script }
    requires holds { T.lets_go ≡ false }
    ensures run { IfOk result.0 (IsLegalKept K.kept N.plan N.inputs N.script) }
    ensures tap { MatchResult result.0 (λ left. IsPrefix (T.given result.1) (emitted_in left.nodes.items)) (λ _. IsPrefix (T.given result.1) (output N.plan N.inputs)) }
{
    times_of::<N>(trades);
    let Ended {
        parts,
        room,
        tap,
        failed,
    } = run_ready(rt, plan, script, turns, gate, links, ready);
    if failed {
        return (Err(OutOfMemory), tap);
    }
    let (left, _feed) = room.filled(parts);
    (Ok(left), tap)
}

/// Runs what is ready: each worker takes the nodes in turn, until each has done its turns, or egress is done,
/// or one finds no memory.
///
/// There is one history for each node of the plan, in the order of nodes, with rising clocks. All events in
/// the order of their clocks are legal and within the script, and each node stands for its numbers in the
/// state that they reach. The tap gave on the first of egress's rows; without memory, of the output. The histories are not
/// written: proofs alone know them.
pub fn run_tapped<R: Threads + Sync, G: Gate, N: FedNames, T: Tap + Send>(
    rt: &R,
    _alloc: Global,
    plan: &Plan,
    trades: &Trades,
    script: &Script,
    turns: u64,
    gate: &G,
    ready: Tapped<N, T>,
) -> (Result<Left<Unwritten>, OutOfMemory>, T)
    requires plan { plan.now ≡ N.plan }
    requires trades { inputs_in trades.now ≡ N.inputs }
    requires script { script.now ≡ N.script }
    ensures run { IfOk result.0 (IsLegalLeft plan.now (inputs_in trades.now) script.now) }
    ensures tap { MatchResult result.0 (λ left. IsPrefix (T.given result.1) (emitted_in left.nodes.items)) (λ _. IsPrefix (T.given result.1) (output plan.now (inputs_in trades.now))) }
{
    let Tapped { ready } = ready;
    let (left, Offers { tap }) = run_named(
        rt, plan, trades, script, turns, gate, &mut Rings, ready,
    );
    (left, tap)
}

// The same over any links, with no tap, of names that are the job's.
fn run_with<N: FedNames, K: Keeps + Send, R: Threads + Sync, M: Links, G: Gate>(
    rt: &R,
    alloc: Global,
    job: &Job<'_, G>,
    links: &mut M,
) -> Result<Left<K>, OutOfMemory>
    requires { IsJobOf N.plan N.inputs N.script job.now }
    ensures { IfOk result (IsLegalKept K.kept N.plan N.inputs N.script) }
{
    let tap = Offers { tap: NoTap };
    let ready: Ready<N, Beforehand<N>, K, M, Offers<NoTap>> = ready_with(
        alloc,
        job.plan,
        job.trades,
        job.threads,
        links,
        tap,
    )?;
    let (left, _tap) = run_named(
        rt, job.plan, job.trades, job.script, job.turns, job.gate, links, ready,
    );
    left
}

/// Runs a plan over its trades by so many workers, each for so many turns, over any links.
///
/// There is one history for each node of the plan, in the order of nodes, with rising clocks. All events in
/// the order of their clocks are legal and within the script, and each node stands for its numbers in the
/// state that they reach. After want of memory the links stand after the calls that were made of them.
pub fn run_over<R: Threads + Sync, M: Links, G: Gate>(
    rt: &R,
    alloc: Global,
    plan: &Plan,
    trades: &Trades,
    script: &Script,
    threads: u32,
    turns: u64,
    links: &mut M,
    gate: &G,
) -> Result<Ran, OutOfMemory>
    requires { AreWorkers threads }
    ensures { IfOk result (IsLegalRun plan.now (inputs_in trades.now) script.now) }
{
    let job = Job {
        plan,
        trades,
        script,
        threads,
        turns,
        gate,
    };
    let left = run_with::<Brand, Log, R, M, G>(rt, alloc, &job, links)?;
    left.told(alloc)
}

/// The same over rings, with the histories as logs that are written.
pub fn run_logged<R: Threads + Sync, G: Gate>(
    rt: &R,
    alloc: Global,
    job: &Job<'_, G>,
) -> Result<Left, OutOfMemory>
    requires { AreWorkers job.now.threads }
    ensures { IfOk result (IsLegalLeft job.now.plan.now (inputs_in job.now.trades.now) job.now.script.now) }
{
    run_with::<Brand, Log, R, Rings, G>(rt, alloc, job, &mut Rings)
}

/// The same with histories that are not written: proofs alone know them, and they take no memory.
pub fn run_unlogged<R: Threads + Sync, G: Gate>(
    rt: &R,
    alloc: Global,
    job: &Job<'_, G>,
) -> Result<Left<Unwritten>, OutOfMemory>
    requires { AreWorkers job.now.threads }
    ensures { IfOk result (IsLegalLeft job.now.plan.now (inputs_in job.now.trades.now) job.now.script.now) }
{
    run_with::<Brand, Unwritten, R, Rings, G>(rt, alloc, job, &mut Rings)
}

/// A run over rings, with the histories as lists.
pub fn run_nodes<R: Threads + Sync, G: Gate>(
    rt: &R,
    alloc: Global,
    plan: &Plan,
    trades: &Trades,
    script: &Script,
    threads: u32,
    turns: u64,
    gate: &G,
) -> Result<Ran, OutOfMemory>
    requires { AreWorkers threads }
    ensures { IfOk result (IsLegalRun plan.now (inputs_in trades.now) script.now) }
{
    run_over(
        rt, alloc, plan, trades, script, threads, turns, &mut Rings, gate,
    )
}
