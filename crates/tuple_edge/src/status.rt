// What a controller holds of a replica.

/// What a controller holds a replica to be.
#[derive(Clone, Copy, Debug, PartialEq, Eq)]
pub enum Status {
    /// It runs, and its reports count.
    Up,
    /// It was restarted and gathers its partner's state; its reports count already.
    Catching,
    /// It was stopped or has failed; nothing of it counts.
    Down,
}
