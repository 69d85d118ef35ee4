// What comes into a dataflow.
use crate::Row;

/// An input of a dataflow: a row, and the source of ingress from which it comes, from 0.
#[derive(Clone, Copy)]
pub struct Input {
    pub source: u32,
    pub row: Row,
}
