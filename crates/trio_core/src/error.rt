// Why an event is no step.
ghost use Rattle.std.specs.Prelude.{◌≡◌};
ghost use Rattle.trio_core.specs.declared.error.TrioError.TheVariants as error;

use tuple_edge::OutOfMemory;

/// Why an event is no step of a core, which is then as it was.
#[derive(Clone, Copy, Debug, PartialEq, Eq)]
pub enum TrioError {
    /// No packet was sent on the link at this place; so many were. Places count from 1.
    NotSent { index: u64, sent: u64 },
    /// The node has no work that is due.
    NothingDue,
    /// A node that is to fail is no replica that runs, or an end of a pull doesn't run.
    NotRunning,
    /// Ingress has made all inputs, and the end.
    NoMoreRows,
    /// The item after the receiver's mark isn't in the producer's buffer, which has those above low up to
    /// produced.
    NotHeld { low: u64, mark: u64, produced: u64 },
    /// Memory is wanting; or a number would pass 2^62, as no memory holds that many items.
    OutOfMemory,
}

impl From<OutOfMemory> for TrioError {
    ghost from_gives = { λ _ e. e ≡ error.OutOfMemory };

    fn from(_want: OutOfMemory) -> TrioError {
        TrioError::OutOfMemory
    }
}
