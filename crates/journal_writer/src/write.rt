// The text of the events of logs.
ghost use Rattle.std.specs.Prelude.{◌≡◌, ◌+◌, ◌++◌, None, IfOk, OnOk, replicate, string_bytes};
ghost use Rattle.event_log.specs.Views.{named_logs};
ghost use Rattle.run_journal.specs.Text.{events_text};
ghost use Rattle.journal_writer.specs.Lines.{lines_of};
ghost use Rattle.journal_writer.specs.Merged.{AllBeginFrom, AreMergeable, earlier, least_from, merged_events};

use crate::source::Source;
use event_log::{EventBlocks, Log};
use run_journal::{begin_events, push_event};
use std::alloc::Global;
use tuple_edge::{Event, OutOfMemory};

// The logs, of which nothing was written.
fn sources_of(alloc: Global, logs: &[Log]) -> Result<Vec<Source<'_>>, OutOfMemory>
    ensures { IfOk result (λ sources. sources.items ≡ named_logs logs.now) }
{
    let mut sources = Vec::with_capacity(alloc, logs.len())?;
    for log in logs {
        let source = Source::new(alloc, log)?;
        sources.push(source)?;
    }
    Ok(sources)
}

// The lesser of two clocks, where there are any.
fn earlier(first: Option<u64>, second: Option<u64>) -> Option<u64>
    ensures { result ≡ earlier first second }
{
    match (first, second) {
        (Some(first), Some(second)) => Some(first.min(second)),
        (Some(clock), None) | (None, Some(clock)) => Some(clock),
        (None, None) => None,
    }
}

// The least clock of an event that is still to be written.
fn least_clock(sources: &[Source]) -> Option<u64>
    ensures { result ≡ least_from None sources.now }
{
    let mut least = None;
    for source in sources {
        least = earlier(least, source.clock());
    }
    least
}

// Writes the events that have the least clock, in the order of nodes.
fn write_clock(
    alloc: Global,
    text: &mut String,
    sources: &mut [Source],
    clock: u64,
) -> Result<(), OutOfMemory>
    requires mergeable { AreMergeable sources.old }
    requires least { AllBeginFrom clock sources.old }
    ensures mergeable { OnOk result (AreMergeable sources.new) }
    ensures later { OnOk result (AllBeginFrom (clock + 1) sources.new) }
    ensures text { OnOk result (string_bytes text.new ++ lines_of (merged_events sources.new) ≡ string_bytes text.old ++ lines_of (merged_events sources.old)) }
{
    for place in 0..sources.len() {
        if sources[place].clock() == Some(clock) {
            sources[place].put(alloc, text)?;
        }
    }
    Ok(())
}

// Writes all that is still to be written.
fn write_merged(alloc: Global, text: &mut String, sources: &mut [Source]) -> Result<(), OutOfMemory>
    requires { AreMergeable sources.old }
    ensures { OnOk result (string_bytes text.new ≡ string_bytes text.old ++ lines_of (merged_events sources.old)) }
{
    while let Some(clock) = least_clock(sources) {
        write_clock(alloc, text, sources, clock)?;
    }
    Ok(())
}

// Writes an event so many times.
fn write_times(
    alloc: Global,
    text: &mut String,
    event: Event,
    count: u64,
) -> Result<(), OutOfMemory>
    ensures { OnOk result (string_bytes text.new ≡ string_bytes text.old ++ lines_of (replicate count event)) }
{
    let mut line = String::new(alloc);
    push_event(&mut line, event)?;
    for _nth in 0..count {
        text.push_str(&line)?;
    }
    Ok(())
}

// Writes events without clocks.
fn write_blocks(alloc: Global, text: &mut String, blocks: &EventBlocks) -> Result<(), OutOfMemory>
    ensures { OnOk result (string_bytes text.new ≡ string_bytes text.old ++ lines_of blocks.now.events) }
{
    let mut reader = blocks.reader();
    while let Some((event, count)) = reader.next() {
        write_times(alloc, text, event, count)?;
    }
    Ok(())
}

/// The canonical text of the events of logs, by clock and node, and of those that a drain did then. The logs
/// are in the order of their nodes, and in each the clocks rise.
pub fn write_logs(alloc: Global, logs: &[Log], drain: &EventBlocks) -> Result<Vec<u8>, OutOfMemory>
    requires { AreMergeable (named_logs logs.now) }
    ensures { IfOk result (λ text. text.items ≡ events_text (merged_events (named_logs logs.now) ++ drain.now.events)) }
{
    let mut text = begin_events(alloc)?;
    let mut sources = sources_of(alloc, logs)?;
    write_merged(alloc, &mut text, &mut sources)?;
    write_blocks(alloc, &mut text, drain)?;
    Ok(text.into_bytes())
}
