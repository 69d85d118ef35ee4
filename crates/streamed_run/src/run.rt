// A run: the nodes on threads while inputs come, and then the drain on the caller.
ghost use Rattle.partition_runner.specs.Job.{IsStreamJobOf};
ghost use Rattle.partition_runner.specs.Streams.{AreHandedOn, BeginOutput, IsLegalStream};
ghost use Rattle.std.specs.Prelude.{◌≡◌, ◌<◌, IfOk, MatchResult, length};
ghost use Rattle.streamed_run.specs.Streamed.{IsStreamEnded, ended_first};

use crate::ended::StreamEnded;
use core_drain::drain;
use event_log::EventBlocks;
use flux_core::Core;
use partition_runner::{
    Gate, Left, RowTap, RunNames, Source, StreamJob, StreamLeft, Streaming, run_streamed,
};
use plan_nodes::NodeState;
use std::alloc::Global;
use std::thread::Threads;
use tuple_edge::OutOfMemory;

// No more inputs come to the first node, which is ingress.
fn end_first(nodes: &mut Vec<NodeState>)
    requires { 0 < length nodes.old.items }
    ensures { nodes.new.items ≡ ended_first nodes.old.items }
{
    nodes[0].end();
}

// Brings what the threads left to the end of the run: the inputs that came are all from now on, and what is left to be done is
// drained. The source and the tap are looked at by contracts alone.
fn finish<G: Gate, S: Source, T: RowTap>(
    alloc: Global,
    job: &StreamJob<'_, G>,
    source: &S,
    tap: &T,
    left: StreamLeft,
) -> Result<StreamEnded, OutOfMemory>
    requires legal { IsLegalStream job.now.plan.now job.now.script.now (S.gave source.now) (S.ended source.now) left }
    requires handed { AreHandedOn (T.given tap.now) left.left.nodes.items }
    ensures ended { IfOk result (IsStreamEnded job.now.plan.now job.now.script.now (S.gave source.now) (S.ended source.now)) }
    ensures gone { IfOk result (λ ended. ended.gone ≡ T.given tap.now) }
    ensures front { BeginOutput job.now.plan.now (S.gave source.now) (S.ended source.now) (T.given tap.now) }
{
    // This call's clause says that a plan is within the limits.
    let _stages = job.plan.stages();
    let _source = source;
    let _tap = tap;
    let StreamLeft {
        left: Left { mut nodes, logs },
        held,
        ended: told,
    } = left;
    end_first(&mut nodes);
    let mut core = Core::of(alloc, job.plan, nodes)?;
    let mut events = EventBlocks::new(alloc);
    let drained = drain(&mut core, &mut events)?;
    Ok(StreamEnded {
        core,
        logs,
        drain: events,
        drained,
        held,
        told,
    })
}

/// Runs what is ready until egress has merged its end, a pair is lost for good, the source stops it or there is no memory; then the
/// inputs that came are all, and what is left to be done is drained on the caller. The source and the tap come back.
///
/// The run has ended as one of just these inputs does: its rows are all of the plan's output for them, each once and in order; or
/// the first lost pair is named, and they are a front of it. The inputs that came to ingress are those that the source gave, but
/// for one for which ingress found no memory. The tap took the first of these rows, and what it took begins the output of every list
/// of inputs that may be: those that came are its first, and all of them where the source said so. That holds without memory, too.
pub fn run_stream<R: Threads + Sync, G: Gate, N: RunNames, S: Source, T: RowTap + Send>(
    rt: &R,
    alloc: Global,
    job: &StreamJob<'_, G>,
    ready: Streaming<N, S, T>,
) -> (Result<StreamEnded, OutOfMemory>, S, T)
    requires { IsStreamJobOf N.plan N.script job.now }
    ensures ended { IfOk result.0 (IsStreamEnded job.now.plan.now job.now.script.now (S.gave result.1) (S.ended result.1)) }
    ensures tap { MatchResult result.0 (λ ended. ended.gone ≡ T.given result.2)
        (λ _. BeginOutput job.now.plan.now (S.gave result.1) (S.ended result.1) (T.given result.2)) }
{
    let (left, source, tap) = run_streamed(rt, job, ready);
    let ended = match left {
        Ok(left) => finish(alloc, job, &source, &tap, left),
        Err(lack) => Err(lack),
    };
    (ended, source, tap)
}
