// A run and its writer side by side.
ghost use Rattle.live_feed.specs.Answers.{answered, ends_whole};
ghost use Rattle.live_feed.specs.Lives.{AnswersSo, LivesSo, output_text};
ghost use Rattle.live_feed.specs.Sides.{HasRun};
ghost use Rattle.live_feed.specs.declared.answer.Live.TheVariants as live;
ghost use Rattle.drained_run.specs.Ended.{IsEnded};
ghost use Rattle.flux_outside.specs.Outside.{Rose};
ghost use Rattle.flux_outside.specs.Told.{SinkTold};
ghost use Rattle.pair_machine.specs.Scripts.{IsSafe};
ghost use Rattle.partition_runner.specs.Job.{AreWorkers, IsJobOf};
ghost use Rattle.ordered_channel.specs.Ends.{receives_from, sends_to, values_got, values_sent};
ghost use Rattle.row_wire.specs.Written.{IsWritten, OffersFront, TakesFront};
ghost use Rattle.std.specs.Prelude.{◌≡◌, ◌≤◌, ◌⊎◌, [], IsTrue, is_some, length, take};
ghost use Rattle.trade_text.specs.Text.{part_text};
ghost use Rattle.trade_text.specs.TradesView.{inputs_in};

use crate::answer::Live;
use crate::end::end_of;
use crate::tap::{RowTap, SendingTap};
use drained_run::Ended;
use failure_script::Script;
use ordered_channel::{ChannelNames, Receiver, Sender, channel};
use partition_runner::{FedNames, Gate, Job, Tapped, Unwritten, ready_tapped, run_tapped};
use plan_reader::Plan;
use row_wire::{Wire, Written, write_received, write_rest};
use std::alloc::Global;
use std::marker::{Brand, PhantomData};
use std::sync::Wait;
use std::thread::{Threads, join_mut};
use trade_text::Trades;
use tuple_edge::{Drained, OutOfMemory, Row};

/// How many rows the channel to the writer holds at most.
const ROWS: usize = 1_024;

// What the side leaves that runs.
#[derive(Drop)]
struct RunSide {
    end: Result<Ended<Unwritten>, OutOfMemory>,
    sender: Sender<Row>,
}

// Runs what is ready, drains it, and says that no row comes any more.
fn run_side<N: FedNames, T: SendingTap + Send, R: Threads + Wait + Sync, G: Gate>(
    rt: &R,
    alloc: Global,
    job: &Job<'_, G>,
    ready: &mut Option<Tapped<N, T>>,
) -> RunSide
    requires job { IsJobOf N.plan N.inputs N.script job.now }
    requires ready { IsTrue (is_some ready.old) }
    ensures run { HasRun N.plan N.inputs N.script (values_sent result.sender) result.end }
    ensures channel { sends_to result.sender ≡ T.channel }
{
    let Some(ready) = ready.take() else {
        unreachable!()
    };
    let (left, tap) = run_tapped(
        rt, alloc, job.plan, job.trades, job.script, job.turns, job.gate, ready,
    );
    let end = end_of(alloc, job, left);
    let mut sender = tap.into_sender();
    sender.stop(rt);
    RunSide { end, sender }
}

// What is answered, as the text was written so and the run ended so.
fn answer_of(written: Written, drained: Drained) -> Live
    ensures { result ≡ answered written drained }
{
    match (written, drained) {
        (Written::Whole, Drained::Whole) => Live::Done,
        (Written::Whole, Drained::Lost { stage, part }) => Live::Lost { stage, part },
        (Written::Broken, _) => Live::WriteFault,
        (Written::Short, _) => Live::OutOfMemory,
    }
}

fn is_whole(drained: Drained) -> bool
    ensures { result ≡ ends_whole drained }
{
    match drained {
        Drained::Whole => true,
        Drained::Lost { .. } => false,
    }
}

// Writes what is missing of the text, once the run has ended, behind the lines of the rows that were written first.
fn finish<N: FedNames, W: Wire>(
    alloc: Global,
    trades: &Trades,
    ended: &Ended<Unwritten>,
    first: usize,
    written: Written,
    out: &mut W,
) -> Live
    requires ended { IsEnded N.plan N.inputs N.script ended.now }
    requires first { first ≤ length ended.now.rows }
    ensures { (start : SinkTold) → IsWritten start (W.told out.old) (part_text trades.now.symbols (take first ended.now.rows)) written
        → LivesSo N.plan N.inputs N.script trades.now.symbols start (W.told out.new) result }
{
    let drained = ended.drained();
    let whole = is_whole(drained);
    let written = write_rest(out, alloc, ended.rows(), first, trades, whole, written);
    answer_of(written, drained)
}

// What a run and its writing come to, once both have ended: what the writer received is known then.
fn close<N: FedNames, W: Wire>(
    alloc: Global,
    trades: &Trades,
    side: RunSide,
    receiver: Receiver<Row>,
    written: Written,
    out: &mut W,
) -> Live
    requires run { HasRun N.plan N.inputs N.script (values_sent side.sender) side.end }
    requires channel { receives_from receiver ≡ sends_to side.sender }
    ensures { (start : SinkTold) → IsWritten start (W.told out.old) (part_text trades.now.symbols (values_got receiver)) written
        → LivesSo N.plan N.inputs N.script trades.now.symbols start (W.told out.new) result }
{
    let RunSide { end, sender } = side;
    let settled = sender.settle(receiver);
    let first = settled.received();
    match end {
        Ok(ended) => finish::<N, W>(alloc, trades, &ended, first, written, out),
        Err(OutOfMemory) => Live::OutOfMemory,
    }
}

// Runs what is ready on one side, and writes what it sends on the other, with the symbols of these trades.
fn fork<N: FedNames, T: SendingTap + Send, R: Threads + Wait + Sync, W: Wire + Send, G: Gate>(
    rt: &R,
    alloc: Global,
    job: &Job<'_, G>,
    ready: &mut Option<Tapped<N, T>>,
    named: &Trades,
    receiver: &mut Receiver<Row>,
    out: &mut W,
) -> (RunSide, Written)
    requires job { IsJobOf N.plan N.inputs N.script job.now }
    requires ready { IsTrue (is_some ready.old) }
    requires got { values_got receiver.old ≡ [] }
    ensures run { HasRun N.plan N.inputs N.script (values_sent result.0.sender) result.0.end }
    ensures sends { sends_to result.0.sender ≡ T.channel }
    ensures receives { receives_from receiver.new ≡ receives_from receiver.old }
    ensures written { IsWritten (W.told out.old) (W.told out.new) (part_text named.now.symbols (values_got receiver.new)) result.1 }
{
    // Each side has an allocator of its own to borrow.
    let for_writing = alloc;
    let mut write = || -> Written
        requires { values_got receiver.now ≡ [] }
        ensures { IsWritten (W.told out.entry.now) (W.told out.exit.now) (part_text named.entry.now.symbols (values_got receiver.exit.now)) result
            × (receives_from receiver.exit.now ≡ receives_from receiver.entry.now) }
    { write_received(rt, for_writing, named, receiver, out) };
    let mut run = || -> RunSide
        requires { IsJobOf N.plan N.inputs N.script job.now × IsTrue (is_some ready.now) }
        ensures { HasRun N.plan N.inputs N.script (values_sent result.sender) result.end × (sends_to result.sender ≡ T.channel) }
    { run_side(rt, alloc, job, ready) };
    // The one that waits for the other has the new thread: where none can be made it comes last, and finds what was sent.
    let (written, side) = join_mut(rt, &mut write, &mut run);
    (side, written)
}

// Runs what is ready and writes meanwhile what its tap sends, and then what is missing.
fn live_ready<N: FedNames, T: SendingTap + Send, R: Threads + Wait + Sync, W: Wire + Send, G: Gate>(
    rt: &R,
    alloc: Global,
    job: &Job<'_, G>,
    ready: Tapped<N, T>,
    receiver: Receiver<Row>,
    out: &mut W,
) -> Live
    requires job { IsJobOf N.plan N.inputs N.script job.now }
    requires receives { receives_from receiver ≡ T.channel }
    requires got { values_got receiver ≡ [] }
    ensures { LivesSo N.plan N.inputs N.script job.now.trades.now.symbols (W.told out.old) (W.told out.new) result }
{
    let mut ready = Some(ready);
    let mut receiver = receiver;
    let (side, written) = fork(rt, alloc, job, &mut ready, job.trades, &mut receiver, out);
    close::<N, W>(alloc, job.trades, side, receiver, written, out)
}

// Runs a plan on one side and writes on the other, over the two ends of a channel.
#[tactic(auto, using(crate::proofs::Texts::lives_unstarted))]
fn live_over<N: FedNames, C: ChannelNames<Row>, R: Threads + Wait + Sync, W: Wire + Send, G: Gate>(
    rt: &R,
    alloc: Global,
    job: &Job<'_, G>,
    sender: Sender<Row>,
    receiver: Receiver<Row>,
    out: &mut W,
) -> Live
    requires job { IsJobOf N.plan N.inputs N.script job.now }
    requires sends { sends_to sender ≡ C.channel }
    requires receives { receives_from receiver ≡ C.channel }
    requires sent { values_sent sender ≡ [] }
    requires got { values_got receiver ≡ [] }
    ensures { LivesSo N.plan N.inputs N.script job.now.trades.now.symbols (W.told out.old) (W.told out.new) result }
{
    let tap: RowTap<'_, R, C> = RowTap {
        rt,
        sender,
        channel: PhantomData,
    };
    let Ok(ready) = ready_tapped::<N, RowTap<'_, R, C>>(
        alloc,
        job.plan,
        job.trades,
        job.script,
        job.threads,
        tap,
    ) else {
        return Live::OutOfMemory;
    };
    live_ready(rt, alloc, job, ready, receiver, out)
}

// The same for names that are the job's, over a channel that is made first.
#[tactic(auto, using(crate::proofs::Texts::lives_unstarted))]
fn live_named<N: FedNames, R: Threads + Wait + Sync, W: Wire + Send, G: Gate>(
    rt: &R,
    alloc: Global,
    job: &Job<'_, G>,
    out: &mut W,
) -> Live
    requires job { IsJobOf N.plan N.inputs N.script job.now }
    ensures { LivesSo N.plan N.inputs N.script job.now.trades.now.symbols (W.told out.old) (W.told out.new) result }
{
    let Ok((sender, receiver)) = channel(alloc, ROWS) else {
        return Live::OutOfMemory;
    };
    live_over::<N, Brand, R, W, G>(rt, alloc, job, sender, receiver, out)
}

/// Runs a plan over its trades under a failure script, by so many workers, each for so many turns or until egress is
/// done, and then drains it; and writes the text of its rows meanwhile: the column names at once, each row when it was
/// emitted, and what is missing once the run has ended. The workers never wait for the wire. It may never return.
///
/// What is put is a front of the text of the plan's output, each row once and in order.
pub fn live<R: Threads + Wait + Sync, W: Wire + Send, G: Gate>(
    rt: &R,
    alloc: Global,
    plan: &Plan,
    trades: &Trades,
    script: &Script,
    threads: u32,
    turns: u64,
    gate: &G,
    out: &mut W,
) -> Live
    requires { AreWorkers threads }
    // Why the answer is given: Done where the whole text was put; Lost where that pair is the first lost one of a state that a legal list within the script
    // reaches, and just that state's rows were put; WriteFault where the wire's count of faults rose and a proper front of the text was put.
    ensures answers { AnswersSo plan.now (inputs_in trades.now) script.now trades.now.symbols (W.told out.old) (W.told out.new) result }
    // Whatever the answer, what was put is a front of the text of the output.
    ensures front { TakesFront (W.told out.old).taken (W.told out.new).taken (output_text plan.now (inputs_in trades.now) trades.now.symbols) }
    // A front of that text was offered, some lines after the others: each put was given what the one before it left, or the next lines where it left nothing.
    ensures offers { OffersFront (W.told out.old).offered (W.told out.new).offered (output_text plan.now (inputs_in trades.now) trades.now.symbols) }
    ensures later { (W.told out.old).faults ≤ (W.told out.new).faults }
    // Under a safe script no pair is lost, so where no fault of the wire was counted, all is put, or no memory was to be had.
    ensures complete { IsSafe script.now → (Rose (W.told out.old).faults (W.told out.new).faults → ⊥) → (result ≡ live.Done) ⊎ (result ≡ live.OutOfMemory) }
{
    let job = Job {
        plan,
        trades,
        script,
        threads,
        turns,
        gate,
    };
    live_named::<Brand, R, W, G>(rt, alloc, &job, out)
}
