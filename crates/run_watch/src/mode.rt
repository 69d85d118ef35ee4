// What a replica is in a frame.

/// What a replica does at a time.
#[derive(Clone, Copy)]
pub enum Mode {
    /// It runs, and leads its pair: what it sends goes out.
    Leads,
    /// It runs beside the leader.
    Runs,
    /// It was brought back, and gathers its partner's state.
    Gathers,
    /// It failed or was stopped.
    Gone,
}
