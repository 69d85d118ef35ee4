// Counting what was taken from each sender.
ghost use Rattle.std.specs.Prelude.{◌≡◌, length};
ghost use Rattle.event_log.specs.Reading.{IsKnown, by_place, counted, index_of};

use crate::entry::Entry;
use tuple_edge::Event;

// An event's index; 0 where it has none.
fn index_of(event: Event) -> u64
    ensures { result ≡ index_of event }
{
    match event {
        Event::Take { index, .. } => index,
        Event::Work { .. }
        | Event::Make
        | Event::Kill { .. }
        | Event::AskStop { .. }
        | Event::AskBack { .. }
        | Event::Pull { .. } => 0,
    }
}

/// Counts the take of an entry, if it is one.
pub(crate) fn count(taken: &mut Vec<u64>, entry: Entry, event: Event)
    requires { IsKnown (length taken.old.items) entry }
    ensures len { length taken.new.items ≡ length taken.old.items }
    ensures counted { by_place taken.new.items ≡ counted entry event (by_place taken.old.items) }
{
    match entry {
        Entry::Take { sender, .. } | Entry::Jump { sender } => {
            taken[usize::from(sender)] = index_of(event);
        },
        Entry::Work { .. } | Entry::Make { .. } | Entry::Whole => {},
    }
}
