// The trade of a line.
ghost use Rattle.std.specs.Prelude.{◌≡◌};
ghost use Rattle.trade_line.specs.Lines.{no_record, record_in, trade_in};

use crate::scan::{begins, behind, counted, line_count};
use std::fmt;
use text_words::ends_line;
use trade_text::RecordState;

/// Why no trade stands in a line of a file.
#[derive(Clone, Copy, Debug, PartialEq, Eq)]
pub enum LineFault {
    /// The file has fewer lines.
    Past { line: u64, lines: u64 },
    /// The header begins there.
    Header { line: u64 },
    /// No record begins there: the line is empty, or within a quoted field.
    NoRecord { line: u64 },
}

impl fmt::Display for LineFault {
    ghost use Rattle.std.specs.Prelude.{Some};
    ghost use Rattle.trade_line.specs.Lines.{line_fault};

    ghost output = { λ fault. Some (line_fault fault) };

    fn fmt<W: fmt::Write>(&self, f: &mut fmt::Formatter<W>) -> fmt::Result {
        match self {
            LineFault::Past { line, lines } => write!(f, "line {line}: the file has {lines} lines"),
            LineFault::Header { line } => write!(f, "line {line}: the header"),
            LineFault::NoRecord { line } => write!(f, "line {line}: no record begins here"),
        }
    }
}

// The number of the record that begins in a line of a text, if one does.
fn record_in(text: &[u8], wanted: u64) -> Option<u64>
    ensures { result ≡ record_in text.now wanted }
{
    let mut state = RecordState::StartRecord;
    let mut records = 0u64;
    let mut line = 1u64;
    let mut rest = text;
    while let Some((byte, more)) = rest.split_first() {
        let here = begins(state, *byte);
        if here && line == wanted {
            return Some(records + 1);
        }
        records = counted(here, records);
        line = counted(ends_line(*byte, more), line);
        state = behind(state, *byte);
        rest = more;
    }
    None
}

// Why no trade stands in a line where no record begins.
fn no_record(text: &[u8], line: u64) -> LineFault
    ensures { result ≡ no_record text.now line }
{
    let lines = line_count(text);
    if lines < line {
        LineFault::Past { line, lines }
    } else {
        LineFault::NoRecord { line }
    }
}

/// The place of the trade whose record begins in a line of a text, or why there is none. The header is the first record.
pub fn trade_in(text: &[u8], line: u64) -> Result<u64, LineFault>
    ensures { result ≡ trade_in text.now line }
{
    match record_in(text, line) {
        None => Err(no_record(text, line)),
        Some(1) => Err(LineFault::Header { line }),
        Some(number) => Ok(number.saturating_sub(2)),
    }
}
