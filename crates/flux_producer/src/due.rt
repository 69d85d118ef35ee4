// What is to be sent next.

/// What is to be sent next: the item of this number, on the edge to a target, to a replica of it.
#[derive(Clone, Copy, Debug, PartialEq, Eq)]
pub struct Due {
    /// The target partition, from 0.
    pub to: u32,
    /// The replica, from 0.
    pub copy: u32,
    /// The number of the item, from 1.
    pub number: u64,
}
