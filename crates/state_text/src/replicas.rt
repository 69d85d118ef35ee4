// The lines of a replica.
ghost use Rattle.replica_node.specs.IsReplica.{IsMoving};
ghost use Rattle.replica_node.specs.Phases.{count_in, inc_in, mode_in, running_in, served_in};
ghost use Rattle.replica_node.specs.declared.phase.Mode.TheVariants as mode;
ghost use Rattle.replica_node.specs.declared.phase.Running.{Running};
ghost use Rattle.state_text.specs.Shown.{HasHeld, gathering_shown, held_numbers, move_shown, replica_shown};
ghost use Rattle.state_text.specs.StateText.{gathering_line, held_line, held_text, running_line};
ghost use Rattle.std.specs.Prelude.{◌≡◌, ◌<◌, ◌++◌, OnOk, Some, length, option_map, string_bytes};

use crate::edges::{push_in_edges, push_out_edges};
use crate::names::flag_word;
use catch_up::Newcomer;
use flux_consumer::Consumer;
use flux_producer::Producer;
use replica_node::{Mode, Replica};
use state_mover::Mover;
use tuple_edge::OutOfMemory;

// Appends the numbers that a newcomer holds of an in-edge.
fn push_held(text: &mut String, newcomer: &Newcomer, edge: u32) -> Result<(), OutOfMemory>
    requires { edge < length newcomer.now.held }
    ensures { OnOk result (string_bytes text.new ≡ string_bytes text.old ++ held_text (held_numbers newcomer.now edge)) }
{
    let mut numbers = newcomer.held_numbers(edge);
    let Some(first) = numbers.next() else {
        text.push_str("-")?;
        return Ok(());
    };
    write!(text, "{first}")?;
    for number in numbers {
        write!(text, ",{number}")?;
    }
    Ok(())
}

// Appends the line of an in-edge of a newcomer.
fn push_held_line(
    text: &mut String,
    name: &str,
    newcomer: &Newcomer,
    edge: u32,
) -> Result<(), OutOfMemory>
    requires { edge < length newcomer.now.held }
    ensures { OnOk result (string_bytes text.new ≡ string_bytes text.old ++ held_line name.now (held_numbers newcomer.now) edge) }
{
    write!(text, "{name} < {edge} held=")?;
    push_held(text, newcomer, edge)?;
    text.push_str("\n")?;
    Ok(())
}

// Appends the line of a newcomer.
fn push_taken(text: &mut String, name: &str, newcomer: &Newcomer) -> Result<(), OutOfMemory>
    ensures { OnOk result (string_bytes text.new ≡ string_bytes text.old ++ gathering_line name.now newcomer.now.inc (length newcomer.now.taken)) }
{
    let inc = newcomer.inc();
    let taken = newcomer.taken();
    write!(text, "{name} gathering inc={inc}")?;
    write!(text, " taken={taken}\n")?;
    Ok(())
}

// Appends the lines of a newcomer with so many in-edges.
#[tactic(auto, using(crate::proofs::Below::lines_next))]
fn push_newcomer(
    text: &mut String,
    name: &str,
    newcomer: &Newcomer,
    edges: u32,
) -> Result<(), OutOfMemory>
    requires { edges ≡ length newcomer.now.held }
    ensures { OnOk result (string_bytes text.new ≡ string_bytes text.old ++ gathering_shown name.now newcomer.now) }
{
    push_taken(text, name, newcomer)?;
    for edge in 0..edges {
        push_held_line(text, name, newcomer, edge)?;
    }
    Ok(())
}

// Appends the line of a move, where one is under way.
fn push_move(text: &mut String, name: &str, mover: Option<&Mover>) -> Result<(), OutOfMemory>
    ensures { OnOk result (string_bytes text.new ≡ string_bytes text.old ++ move_shown name.now (option_map (λ m. m.now) mover.entry)) }
{
    let Some(mover) = mover else {
        return Ok(());
    };
    let target = mover.target();
    let sent = mover.sent();
    let total = mover.total();
    write!(text, "{name} move target={target} sent={sent} of={total}\n")?;
    Ok(())
}

// Appends the line of a replica that runs, which sends by this producer.
fn push_counts(
    text: &mut String,
    name: &str,
    replica: &Replica,
    producer: &Producer,
) -> Result<(), OutOfMemory>
    ensures { OnOk result (string_bytes text.new ≡ string_bytes text.old ++ running_line name.now (inc_in replica.now.phase) producer.now.term producer.now.leads
        (served_in replica.now.phase) (count_in replica.now.phase)) }
{
    let inc = replica.inc();
    let term = producer.term();
    let leads = flag_word(producer.leads());
    let served = replica.served();
    let count = replica.count();
    write!(text, "{name} running inc={inc} term={term}")?;
    write!(text, " leads={leads} served={served} count={count}\n")?;
    Ok(())
}

// Appends the lines of a replica that runs, with what it takes and what it sends.
fn push_parts(
    text: &mut String,
    name: &str,
    replica: &Replica,
    consumer: &Consumer,
    producer: &Producer,
) -> Result<(), OutOfMemory>
    requires takes { Some consumer.now ≡ option_map (λ r. r.consumer) (running_in replica.now.phase) }
    requires sends { Some producer.now ≡ option_map (λ r. r.producer) (running_in replica.now.phase) }
    ensures { OnOk result (string_bytes text.new ≡ string_bytes text.old ++ replica_shown name.now replica.now) }
{
    push_counts(text, name, replica, producer)?;
    push_in_edges(text, name, consumer)?;
    push_out_edges(text, name, producer)?;
    push_move(text, name, replica.mover())?;
    Ok(())
}

// Appends the lines of a replica that runs.
fn push_running(text: &mut String, name: &str, replica: &Replica) -> Result<(), OutOfMemory>
    requires { mode_in replica.now.phase ≡ mode.Running }
    ensures { OnOk result (string_bytes text.new ≡ string_bytes text.old ++ replica_shown name.now replica.now) }
{
    let (Some(consumer), Some(producer)) = (replica.consumer(), replica.producer()) else {
        unreachable!()
    };
    push_parts(text, name, replica, consumer, producer)
}

// Appends the lines of a replica that gathers.
fn push_gathering(
    text: &mut String,
    name: &str,
    replica: &Replica,
    edges: u32,
) -> Result<(), OutOfMemory>
    requires mode { mode_in replica.now.phase ≡ mode.Gathering }
    requires edges { HasHeld edges replica.now.phase }
    ensures { OnOk result (string_bytes text.new ≡ string_bytes text.old ++ replica_shown name.now replica.now) }
{
    let Some(newcomer) = replica.newcomer() else {
        unreachable!()
    };
    push_newcomer(text, name, newcomer, edges)
}

// Appends the lines of a replica, whose partition has so many in-edges.
pub(crate) fn push_replica(
    text: &mut String,
    name: &str,
    replica: &Replica,
    edges: u32,
) -> Result<(), OutOfMemory>
    requires { HasHeld edges replica.now.phase }
    ensures lines { OnOk result (string_bytes text.new ≡ string_bytes text.old ++ replica_shown name.now replica.now) }
    ensures moving { (r : Running) → running_in replica.now.phase ≡ Some r → IsMoving r.mover r.state.old }
{
    // Asked only for what its contract says of a move under way, which `moving` hands on.
    let _mover = replica.mover();
    match replica.mode() {
        Mode::Running => push_running(text, name, replica),
        Mode::Gathering => push_gathering(text, name, replica, edges),
        Mode::Gone => {
            let inc = replica.inc();
            write!(text, "{name} gone inc={inc}\n")?;
            Ok(())
        }
    }
}
