// The entries of a log, in less memory where one comes again.
ghost use Rattle.std.specs.Prelude.{◌≡◌, ◌≤◌, ◌<◌, ◌+◌, ◌++◌, ◌∷◌, [], OnOk, OnErr, replicate, vec_len, vec_capacity};
ghost use Rattle.event_log.specs.declared.entry.Entry.TheVariants as entry;
ghost use Rattle.event_log.specs.Stored.{CameAgain, again_of};

use crate::entry::Entry;
use crate::entry_reader::EntryReader;
use crate::stored::Stored;
use std::alloc::Global;
use std::marker::Model;
use tuple_edge::OutOfMemory;

// So many times an `Again` says at most.
const MOST_AGAIN: usize = 65_536;

/// The entries of a log, in order. One that comes again takes no memory of its own.
#[derive(Drop)]
pub(crate) struct Entries {
    stored: Vec<Stored>,
    // What comes where the last one comes again.
    again: Entry,
}

impl Model for Entries {
    ghost use Rattle.event_log.specs.Stored.{again_at, entries_of};
    ghost use Rattle.event_log.specs.Views.{EntriesView};
    ghost use Rattle.std.specs.Prelude.{◌≡◌, ◌-◌, vec_capacity, vec_len};

    ghost Value = { EntriesView };

    ghost view = { λ e. record {
      entries = entries_of e.stored.items;
      again = e.again;
      spare = vec_capacity e.stored - vec_len e.stored;
    } };

    ghost invariant = { λ e. again_at e.stored.items ≡ e.again };
}

// Lets the `Again` at the end, if there is one, say up to so many times more. Gives how many.
fn lengthen(list: &mut Vec<Stored>, times: usize) -> usize
    ensures again { CameAgain list.old.items result list.new.items }
    ensures most { result ≤ times }
    ensures len { vec_len list.new ≡ vec_len list.old }
    ensures capacity { vec_capacity list.new ≡ vec_capacity list.old }
{
    let Some(last) = list.last_mut() else {
        return 0;
    };
    let Some((longer, by)) = last.longer(times) else {
        return 0;
    };
    *last = longer;
    by
}

// Appends what comes where the last entry comes again, so many times.
fn push_again(list: &mut Vec<Stored>, times: usize)
    requires { vec_len list.old + times ≤ vec_capacity list.old }
    ensures again { CameAgain list.old.items times list.new.items }
    ensures len { vec_len list.new ≤ vec_len list.old + times }
    ensures capacity { vec_capacity list.new ≡ vec_capacity list.old }
{
    let mut left = times - lengthen(list, times);
    while left > 0 {
        let most = left.min(MOST_AGAIN);
        list.push_reserved(Stored::Again {
            further: (most - 1) as u16,
        });
        left -= most;
    }
}

impl Entries {
    /// No entries.
    pub(crate) fn new(alloc: Global) -> Entries
        ensures { result ≡ record { entries = []; again = entry.Whole; spare = 0 } }
    {
        Entries {
            stored: Vec::new(alloc),
            again: Entry::Whole,
        }
    }

    /// Makes room for this many further entries. Where there is room already it is never refused.
    pub(crate) fn reserve(&mut self, entries: usize) -> Result<(), OutOfMemory>
        ensures same { self.new ≡ record self.old { spare = self.new.spare } }
        ensures spare { OnOk result (entries ≤ self.new.spare) }
        ensures kept { self.old.spare ≤ self.new.spare }
        ensures refused { OnErr result (self.old.spare < entries) }
    {
        self.stored.reserve(entries)?;
        Ok(())
    }

    /// Appends an entry. It takes at most one place of the room.
    pub(crate) fn push(&mut self, entry: Entry)
        requires { 1 ≤ self.old.spare }
        ensures entries { self.new.entries ≡ self.old.entries ++ entry ∷ [] }
        ensures again { self.new.again ≡ again_of entry }
        ensures spare { self.old.spare ≤ self.new.spare + 1 }
    {
        if entry == self.again {
            push_again(&mut self.stored, 1);
            return;
        }
        self.stored.push_reserved(Stored::of(entry));
        self.again = entry.again();
    }

    /// Appends an entry so many times, one that comes again as it is. It takes at most as many places of the room.
    pub(crate) fn push_times(&mut self, entry: Entry, times: usize)
        requires room { times ≤ self.old.spare }
        requires again { again_of entry ≡ entry }
        ensures entries { self.new.entries ≡ self.old.entries ++ replicate times entry }
        ensures spare { self.old.spare ≤ self.new.spare + times }
    {
        if times == 0 {
            return;
        }
        self.push(entry);
        push_again(&mut self.stored, times - 1);
    }

    /// A reader of them, from the first on.
    pub(crate) fn reader(&self) -> EntryReader<'_>
        ensures { result ≡ self.now.entries }
    {
        EntryReader::new(&self.stored)
    }
}
