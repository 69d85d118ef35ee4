// The entries of a log as they lie in memory.
ghost use Rattle.std.specs.Prelude.{◌≡◌, ◌≤◌, IfSome};
ghost use Rattle.event_log.specs.Stored.{IsLonger, first_entry, further_of};

use crate::entry::Entry;

/// What a log stores: an entry, or that the entry before comes again, so many times.
#[derive(Clone, Copy, Debug, PartialEq, Eq)]
pub(crate) enum Stored {
    /// `Entry::Work`.
    Work { rise: u16 },
    /// `Entry::Make`.
    Make { rise: u16 },
    /// `Entry::Take`.
    Take { sender: u8, rise: u16 },
    /// `Entry::Jump`.
    Jump { sender: u8 },
    /// `Entry::Whole`.
    Whole,
    /// What comes where the entry before comes again: once, and then so many times further.
    Again { further: u16 },
}

const _: () = prove!(size_of::<Stored>() == 4);

impl Stored {
    /// An entry by itself.
    pub(crate) fn of(entry: Entry) -> Stored
        ensures entry { (again : Entry) → first_entry again result ≡ entry }
        ensures further { further_of result ≡ 0 }
    {
        match entry {
            Entry::Work { rise } => Stored::Work { rise },
            Entry::Make { rise } => Stored::Make { rise },
            Entry::Take { sender, rise } => Stored::Take { sender, rise },
            Entry::Jump { sender } => Stored::Jump { sender },
            Entry::Whole => Stored::Whole,
        }
    }

    /// Its first entry, where the one before would come again as this one.
    pub(crate) fn entry(self, again: Entry) -> Entry
        ensures { result ≡ first_entry again self }
    {
        match self {
            Stored::Work { rise } => Entry::Work { rise },
            Stored::Make { rise } => Entry::Make { rise },
            Stored::Take { sender, rise } => Entry::Take { sender, rise },
            Stored::Jump { sender } => Entry::Jump { sender },
            Stored::Whole => Entry::Whole,
            Stored::Again { .. } => again,
        }
    }

    /// How many times that one comes again.
    pub(crate) fn further(self) -> u16
        ensures { result ≡ further_of self }
    {
        match self {
            Stored::Again { further } => further,
            Stored::Work { .. }
            | Stored::Make { .. }
            | Stored::Take { .. }
            | Stored::Jump { .. }
            | Stored::Whole => 0,
        }
    }

    /// An `Again` that says up to so many times more, and how many they are. None where it is none.
    pub(crate) fn longer(self, times: usize) -> Option<(Stored, usize)>
        ensures longer { IfSome result (λ longer. IsLonger self longer.1 longer.0) }
        ensures most { IfSome result (λ longer. longer.1 ≤ times) }
    {
        let Stored::Again { further } = self else {
            return None;
        };
        let by = times.min(usize::from(u16::MAX - further));
        let further = further + by as u16;
        Some((Stored::Again { further }, by))
    }
}
