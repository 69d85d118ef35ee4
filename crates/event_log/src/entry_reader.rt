// Reading the entries of a log one by one.
ghost use Rattle.std.specs.Prelude.{◌≡◌, ◌∷◌, [], IfNone, MatchOption, drop};

use crate::entry::Entry;
use crate::stored::Stored;
use std::marker::Model;

/// The entries of a log that are still to be read.
#[derive(Drop)]
pub(crate) struct EntryReader<'a> {
    // So many times still this one, and then what is stored.
    further: u16,
    again: Entry,
    stored: &'a [Stored],
}

impl<'a> Model for EntryReader<'a> {
    ghost use Rattle.std.specs.Prelude.{List, ◌++◌, replicate};
    ghost use Rattle.event_log.specs.declared.entry.Entry.{Entry};
    ghost use Rattle.event_log.specs.Stored.{written_out};

    ghost Value = { List Entry };

    ghost view = { λ r. replicate r.further r.again ++ written_out r.again r.stored.now };
}

impl<'a> EntryReader<'a> {
    ghost use Rattle.event_log.specs.Stored.{entries_of};

    /// A reader of what is stored, from the first entry on.
    pub(crate) fn new(stored: &'a [Stored]) -> EntryReader<'a>
        ensures { result ≡ entries_of stored.now }
    {
        EntryReader {
            further: 0,
            again: Entry::Whole,
            stored,
        }
    }

    /// The next entry, which stays. None exactly where there is none.
    pub(crate) fn first(&self) -> Option<Entry>
        ensures { MatchOption result (self.now ≡ []) (λ entry. self.now ≡ entry ∷ drop 1 self.now) }
    {
        if self.further > 0 {
            return Some(self.again);
        }
        let stored = self.stored.first()?;
        Some(stored.entry(self.again))
    }

    /// Takes the next entry. None exactly where there is none.
    pub(crate) fn next(&mut self) -> Option<Entry>
        ensures entry { MatchOption result (self.old ≡ []) (λ entry. self.old ≡ entry ∷ self.new) }
        ensures unchanged { IfNone result (self.new ≡ self.old) }
    {
        if self.further > 0 {
            self.further -= 1;
            return Some(self.again);
        }
        let (stored, rest) = self.stored.split_first()?;
        let entry = stored.entry(self.again);
        self.further = stored.further();
        self.again = entry.again();
        self.stored = rest;
        Some(entry)
    }
}
