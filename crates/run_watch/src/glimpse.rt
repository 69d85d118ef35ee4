// The few numbers of a node by which one sees what happens to it.
ghost use Rattle.run_watch.specs.Glimpses.{inc_of, mode_of};
ghost use Rattle.run_watch.specs.Looks.{knows, runs_as};
ghost use Rattle.std.specs.Prelude.{◌≡◌};

use crate::mode::Mode;
use tuple_edge::{Status, Which};

/// A move that a replica gives: for which incarnation of its partner, and how many entries of it were sent.
#[derive(Clone, Copy, PartialEq, Eq)]
pub struct Moving {
    pub target: u64,
    pub sent: u64,
}

/// What a controller knows of a replica.
#[derive(Clone, Copy, PartialEq, Eq)]
pub struct Known {
    pub status: Status,
    pub inc: u64,
}

/// A node, seen at a time.
#[derive(Clone, Copy, PartialEq, Eq)]
pub enum Glimpse {
    /// A replica that runs.
    Running {
        inc: u64,
        leads: bool,
        term: u64,
        moving: Option<Moving>,
    },
    /// A replica that gathers: how many entries it took, and how many items it holds.
    Gathering {
        inc: u64,
        taken: u64,
        held: u64,
    },
    /// A replica that is gone.
    Gone {
        inc: u64,
    },
    /// A controller.
    Control {
        term: u64,
        leader: Option<Which>,
        a: Known,
        b: Known,
    },
    /// Ingress or egress.
    End,
}

impl Glimpse {
    // The incarnation of a replica; of another node 0.
    pub(crate) fn inc(&self) -> u64
        ensures { result ≡ inc_of self.now }
    {
        match *self {
            Glimpse::Running { inc, .. } => inc,
            Glimpse::Gathering { inc, .. } => inc,
            Glimpse::Gone { inc } => inc,
            Glimpse::Control { .. } | Glimpse::End => 0,
        }
    }

    // The incarnation in which a replica runs, where it does.
    pub(crate) fn runs_as(&self) -> Option<u64>
        ensures { result ≡ runs_as self.now }
    {
        match *self {
            Glimpse::Running { inc, .. } => Some(inc),
            Glimpse::Gathering { .. }
            | Glimpse::Gone { .. }
            | Glimpse::Control { .. }
            | Glimpse::End => None,
        }
    }

    // What a controller knows of a replica.
    pub(crate) fn known(&self, which: Which) -> Option<Known>
        ensures { result ≡ knows self.now which }
    {
        match *self {
            Glimpse::Control { a, b, .. } => Some(match which {
                Which::A => a,
                Which::B => b,
            }),
            Glimpse::Running { .. }
            | Glimpse::Gathering { .. }
            | Glimpse::Gone { .. }
            | Glimpse::End => None,
        }
    }

    // The mode of a replica; a node of another kind has that of one that is gone.
    pub(crate) fn mode(&self) -> Mode
        ensures { result ≡ mode_of self.now }
    {
        match *self {
            Glimpse::Running { leads, .. } => { if leads { Mode::Leads } else { Mode::Runs } }
            Glimpse::Gathering { .. } => Mode::Gathers,
            Glimpse::Gone { .. } | Glimpse::Control { .. } | Glimpse::End => Mode::Gone,
        }
    }
}
