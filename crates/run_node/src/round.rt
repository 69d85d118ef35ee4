// The round in which a node looks at its in-links.

/// Where the round of a turn goes on: the link that is looked at next, and how many are left. Each link is looked at until
/// nothing is there, and then no more in this turn.
#[derive(Clone, Copy, Debug, PartialEq, Eq)]
pub(crate) struct Round {
    pub(crate) next: usize,
    pub(crate) left: usize,
}

impl Round {
    /// A round of no link.
    pub(crate) fn none() -> Round {
        Round { next: 0, left: 0 }
    }

    /// The round of the next turn over so many links. It begins one link further.
    pub(crate) fn renewed(self, links: usize) -> Round {
        let further = self.next.saturating_add(1);
        let next = if further < links { further } else { 0 };
        Round { next, left: links }
    }
}
