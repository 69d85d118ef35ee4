// What a run is at the end of a column.
ghost use Rattle.std.specs.Prelude.{◌≡◌};

use crate::mode::Mode;
use std::marker::Model;

/// What a run is after so many events: the mode of each replica in node order, pair by pair and in a pair A before
/// B, and how far ingress and egress are.
#[derive(Drop)]
pub struct Frame {
    place: u64,
    modes: Vec<Mode>,
    made: u64,
    emitted: u64,
}

impl Model for Frame {
    ghost use Rattle.run_watch.specs.FrameView.{FrameView};

    ghost Value = { FrameView };

    ghost view = { λ f. record { place = f.place; modes = f.modes.items; made = f.made; emitted = f.emitted } };
}

impl Frame {
    // A frame of these parts.
    pub(crate) fn new(place: u64, modes: Vec<Mode>, made: u64, emitted: u64) -> Frame
        ensures { result ≡ record { place = place; modes = modes.items; made = made; emitted = emitted } }
    {
        Frame {
            place,
            modes,
            made,
            emitted,
        }
    }

    /// After how many events of the list it is.
    pub fn place(&self) -> u64
        ensures { result ≡ self.now.place }
    {
        self.place
    }

    /// The mode of each replica, in node order.
    pub fn modes(&self) -> &[Mode]
        ensures { result.now ≡ self.now.modes }
    {
        &self.modes
    }

    /// How many inputs ingress had made into items by then; the end counts as one.
    pub fn made(&self) -> u64
        ensures { result ≡ self.now.made }
    {
        self.made
    }

    /// How many rows egress had emitted by then.
    pub fn emitted(&self) -> u64
        ensures { result ≡ self.now.emitted }
    {
        self.emitted
    }
}
