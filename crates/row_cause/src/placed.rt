// A row and its place.

use tuple_edge::Row;

/// A row and its place in the list of rows that come to its stage, from 0.
#[derive(Clone, Copy, Debug, PartialEq, Eq)]
pub struct Placed {
    pub place: usize,
    pub row: Row,
}
