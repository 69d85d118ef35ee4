// A range of places.

/// The places from `first` up to `beyond`, which isn't one of them.
#[derive(Clone, Copy, Debug, PartialEq, Eq)]
pub(crate) struct PlaceRange {
    pub(crate) first: usize,
    pub(crate) beyond: usize,
}

impl PlaceRange {
    /// No place.
    pub(crate) fn none() -> PlaceRange {
        PlaceRange {
            first: usize::MAX,
            beyond: 0,
        }
    }

    /// Whether there is none.
    pub(crate) fn is_empty(&self) -> bool {
        self.beyond <= self.first
    }

    /// These, a further one, and those between.
    pub(crate) fn with(self, place: usize) -> PlaceRange {
        PlaceRange {
            first: self.first.min(place),
            beyond: self.beyond.max(place.saturating_add(1)),
        }
    }
}
