// The entries of a log.
ghost use Rattle.std.specs.Prelude.{◌≡◌};

/// What a log keeps of one event. `rise` is by how much the clock rose since the event before, and `sender`
/// the place of a sender among the log's senders.
#[derive(Clone, Copy, Debug, PartialEq, Eq)]
pub(crate) enum Entry {
    /// The node worked.
    Work { rise: u16 },
    /// A row was made.
    Make { rise: u16 },
    /// The node took the next packet of a sender.
    Take { sender: u8, rise: u16 },
    /// The node took a packet that isn't its sender's next one, or took it much later: the next of the whole events.
    Jump { sender: u8 },
    /// The next of the whole events.
    Whole,
}

const _: () = prove!(size_of::<Entry>() == 4);

impl Entry {
    ghost use Rattle.event_log.specs.Reading.{needed};
    ghost use Rattle.event_log.specs.Stored.{again_of};

    /// How many whole events it needs: one or none.
    pub(crate) fn needed(self) -> usize
        ensures { result ≡ needed self }
    {
        match self {
            Entry::Work { .. } | Entry::Make { .. } | Entry::Take { .. } => 0,
            Entry::Jump { .. } | Entry::Whole => 1,
        }
    }

    /// The entry of the same again: with the next clock, and of a sender the next packet.
    pub(crate) fn again(self) -> Entry
        ensures { result ≡ again_of self }
    {
        match self {
            Entry::Work { .. } => Entry::Work { rise: 1 },
            Entry::Make { .. } => Entry::Make { rise: 1 },
            Entry::Take { sender, .. } | Entry::Jump { sender } => Entry::Take { sender, rise: 1 },
            Entry::Whole => Entry::Whole,
        }
    }
}
