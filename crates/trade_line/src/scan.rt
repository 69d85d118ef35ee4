// The records and lines of a file, byte by byte.
ghost use Rattle.std.specs.Prelude.{◌≡◌, ◌≤◌, ◌<◌, ◌+◌, ◌^◌};
ghost use Rattle.trade_line.specs.Scans.{begins, behind, counted, lines_in};
ghost use Rattle.trade_text.specs.RecordStates.{state_of};

use text_words::{ends_line, is_end_byte};
use trade_text::RecordState;

/// Whether a record begins with this byte.
pub(crate) fn begins(state: RecordState, byte: u8) -> bool
    ensures { result ≡ begins (state_of state) byte }
{
    !state.ends_at_end() && !is_end_byte(byte)
}

/// Where the byte behind this one stands.
pub(crate) fn behind(state: RecordState, byte: u8) -> RecordState
    ensures { state_of result ≡ behind (state_of state) byte }
{
    let (next, _) = state.step(byte);
    next
}

/// One more, where it is so.
pub(crate) fn counted(more: bool, count: u64) -> u64
    requires { count < 2 ^ 63 }
    ensures value { result ≡ counted more count }
    ensures few { result ≤ count + 1 }
{
    if more { count + 1 } else { count }
}

/// How many lines a text has.
pub(crate) fn line_count(text: &[u8]) -> u64
    ensures { result ≡ lines_in text.now }
{
    let mut lines = 0u64;
    let mut rest = text;
    while let Some((byte, more)) = rest.split_first() {
        lines = counted(ends_line(*byte, more) || more.is_empty(), lines);
        rest = more;
    }
    lines
}
