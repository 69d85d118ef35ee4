// How texts of events are read, whatever their lines say: the first line, and one entry a line, as often as the line says.
ghost use Rattle.std.specs.Prelude.{All, ◌≡◌, ◌<◌, ◌≤◌, ◌+◌, ◌++◌, Err, IfErr, IfOk, OnOk, length, replicate};
ghost use Rattle.text_words.specs.Reading.{Reads, Takes};
ghost use Rattle.run_journal.specs.Limits.{max_events, max_events_bytes};
ghost use Rattle.run_journal.specs.Listing.{body_of, header_at, lines_after, listing_of, once, with_line, with_lines};
ghost use Rattle.run_journal.specs.Reading.{Gives};

use crate::{EventsError, Fault, MAX_EVENTS, MAX_EVENTS_BYTES};
use std::alloc::Global;
use text_words::{Line, Lines, Words};
use tuple_edge::OutOfMemory;

/// An event, and how often it happens.
#[derive(Drop)]
pub struct Repeated<E> {
    pub event: E,
    pub times: u64,
}

/// An event that happens once.
pub fn once<E: Copy>(event: E) -> Repeated<E>
    ensures { result ≡ once event }
{
    Repeated { event, times: 1 }
}

/// What reads the lines of a text of events after its first one, each as an entry.
pub trait EventForm<L> {
    ghost use Rattle.std.specs.Prelude.{◌≤◌, IfOk};
    ghost use Rattle.run_journal.specs.Limits.{max_repeats};
    ghost use Rattle.run_journal.specs.Listing.{LineReading};
    ghost use Rattle.text_words.specs.Reading.{Takes};

    /// What the words of a line with this number say.
    ghost said_at: { Self → LineReading L };

    /// What holds of each entry.
    ghost within: { Self → L → Type 0 };

    /// What a line says: an entry, and how often it stands.
    fn said(&self, number: u64, words: &mut Words<'_>) -> Result<Repeated<L>, Fault>
        ensures reads { Takes words.new result (said_at self.now number words.old) }
        ensures few { IfOk result (λ said. said.times ≤ max_repeats) }
        ensures within { IfOk result (λ said. within self.now said.event) };
}

// The words of the first line that counts.
#[tactic(auto, unfolding(crate::specs::Listing::header_at))]
fn header(words: &mut Words<'_>, name: &str) -> Result<(), Fault>
    ensures { Takes words.new result (header_at name.now words.old) }
{
    words.fixed_or(name, Fault::Grammar)?;
    words.fixed_or("1", Fault::Grammar)?;
    words.end_or(Fault::Grammar)
}

// Passes the first line that counts.
#[tactic(auto, unfolding(crate::specs::Listing::lines_after))]
fn pass_header(lines: &mut Lines<'_>, name: &str) -> Result<(), EventsError>
    ensures { Reads (λ x. lines.new) result (lines_after name.now lines.old) }
{
    match lines.next_line() {
        None => Err(EventsError::Header),
        Some(mut line) => match header(&mut line.words, name) {
            Err(_) => Err(EventsError::Header),
            Ok(()) => Ok(()),
        },
    }
}

// The lines of a text after its first one.
fn body<'a>(bytes: &'a [u8], name: &str) -> Result<Lines<'a>, EventsError>
    ensures reads { Reads (λ lines. lines) result (body_of name.now bytes.now) }
    ensures long { max_events_bytes < length bytes.now → result ≡ Err (EventsError.TooLong (length bytes.now)) }
{
    let length = bytes.len() as u64;
    if length > MAX_EVENTS_BYTES {
        return Err(EventsError::TooLong { bytes: length });
    }
    let mut lines = Lines::new(bytes);
    pass_header(&mut lines, name)?;
    Ok(lines)
}

// Appends an entry, so many times.
fn push_times<L: Copy>(entries: &mut Vec<L>, entry: L, times: u64) -> Result<(), OutOfMemory>
    requires room { length entries.old.items + times ≤ max_events }
    ensures { OnOk result (entries.new.items ≡ entries.old.items ++ replicate times entry) }
{
    entries.reserve(times as usize)?;
    for _turn in 0..times {
        entries.push(entry)?;
    }
    Ok(())
}

// Adds the entries of a line.
#[tactic(auto, unfolding(crate::specs::Listing::with_line))]
fn take_line<L: Copy, S: EventForm<L>>(
    entries: &mut Vec<L>,
    line: Line<'_>,
    form: &S,
) -> Result<(), EventsError>
    requires few { length entries.old.items ≤ max_events }
    requires within { All (S.within form.now) entries.old.items }
    ensures value { Gives (λ x. entries.new.items) result (with_line (S.said_at form.now) entries.old.items (record { number = line.entry.number; words = line.entry.words })) }
    // A line that is refused wants no memory.
    ensures refused { IfErr (with_line (S.said_at form.now) entries.old.items (record { number = line.entry.number; words = line.entry.words })) (λ e. result ≡ Err e) }
    ensures few { OnOk result (length entries.new.items ≤ max_events) }
    ensures within { OnOk result (All (S.within form.now) entries.new.items) }
{
    let Line { number, mut words } = line;
    match form.said(number, &mut words) {
        Err(fault) => Err(fault.at(number)),
        Ok(said) => {
            if entries.len() + said.times as usize > MAX_EVENTS {
                return Err(EventsError::TooMany);
            }
            match push_times(entries, said.event, said.times) {
                Err(_) => Err(EventsError::OutOfMemory),
                Ok(()) => Ok(()),
            }
        }
    }
}

// Adds the entries of all further lines.
#[tactic(auto, unfolding(crate::specs::Listing::with_lines))]
fn take_all<L: Copy, S: EventForm<L>>(
    entries: &mut Vec<L>,
    lines: &mut Lines<'_>,
    form: &S,
) -> Result<(), EventsError>
    requires few { length entries.old.items ≤ max_events }
    requires within { All (S.within form.now) entries.old.items }
    ensures value { Gives (λ x. entries.new.items) result (with_lines (S.said_at form.now) entries.old.items lines.old) }
    ensures few { OnOk result (length entries.new.items ≤ max_events) }
    ensures within { OnOk result (All (S.within form.now) entries.new.items) }
{
    while let Some(line) = lines.next_line() {
        take_line(entries, line, form)?;
    }
    Ok(())
}

/// The entries of a text of events whose first line is this word and `1`, in order, or the first of its faults.
/// A line that repeats its event gives it so often.
pub fn read_listing<L: Copy, S: EventForm<L>>(
    alloc: Global,
    bytes: &[u8],
    name: &str,
    form: &S,
) -> Result<Vec<L>, EventsError>
    ensures reads { Gives (λ entries. entries.items) result (listing_of name.now (S.said_at form.now) bytes.now) }
    // A text that is too long wants no memory.
    ensures long { max_events_bytes < length bytes.now → result ≡ Err (EventsError.TooLong (length bytes.now)) }
    // They are not too many, and of each holds what holds of every one that a line gives.
    ensures few { IfOk result (λ entries. length entries.items ≤ max_events) }
    ensures within { IfOk result (λ entries. All (S.within form.now) entries.items) }
{
    let mut lines = body(bytes, name)?;
    let mut entries = Vec::new(alloc);
    take_all(&mut entries, &mut lines, form)?;
    Ok(entries)
}
