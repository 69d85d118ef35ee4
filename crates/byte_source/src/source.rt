// Where bytes come from.
ghost use Rattle.std.specs.Prelude.{◌<◌, ◌≤◌, IfOk, OnErr, length, take};
ghost use Rattle.byte_source.specs.Told.{Fails, Gives, SourceTold};

/// A source gave nothing, and its count of faults rose.
#[derive(Clone, Copy, Debug, PartialEq, Eq)]
pub struct ReadFailed;

/// A source of bytes, which come in pieces.
pub trait ByteSource {
    /// What the source tells.
    ghost told: { Self → SourceTold };

    /// Waits for bytes, puts them at the front of a buffer, and says how many there are: none where the input has ended. The
    /// rest of the buffer is of no meaning then.
    fn read(&mut self, into: &mut [u8]) -> Result<usize, ReadFailed>
        requires { 0 < length into.old }
        ensures within { IfOk result (λ count. count ≤ length into.new) }
        ensures gives { IfOk result (λ count. Gives (told self.old) (take count into.new) (told self.new)) }
        ensures failed { OnErr result (Fails (told self.old) (told self.new)) };
}
