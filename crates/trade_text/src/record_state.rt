// The machine that cuts records out of bytes, as csv has it for commas and double quotes.
ghost use Rattle.csv.specs.Machine.{ends_at_end, in_field, is_end, start_field, step};
ghost use Rattle.csv.specs.Reading.{default_config};
ghost use Rattle.std.specs.Prelude.{◌≡◌};
ghost use Rattle.trade_text.specs.RecordStates.{action_of, csv_step, is_field_end, state_of};

/// Where a byte stands in a record.
#[derive(Clone, Copy, Debug, PartialEq, Eq)]
pub enum RecordState {
    /// No record has begun.
    StartRecord,
    StartField,
    InField,
    InQuoted,
    /// Behind a quote in a quoted field: it ends the quoted part, or it is the first of two.
    AfterQuote,
    /// Behind a record that a CR ended: an LF is skipped.
    AfterCr,
}

/// What a byte does.
#[derive(Clone, Copy, Debug, PartialEq, Eq)]
pub enum RecordAction {
    Skip,
    /// It is a byte of the field.
    Copy,
    EndField,
    /// It ends the record, and its last field.
    EndRecord,
}

// A byte in a field that isn't quoted.
#[inline(always)]
fn in_field(byte: u8) -> (RecordState, RecordAction)
    ensures { csv_step result ≡ in_field default_config byte }
{
    if byte == b',' {
        (RecordState::StartField, RecordAction::EndField)
    } else if byte == b'\r' {
        (RecordState::AfterCr, RecordAction::EndRecord)
    } else if byte == b'\n' {
        (RecordState::StartRecord, RecordAction::EndRecord)
    } else {
        (RecordState::InField, RecordAction::Copy)
    }
}

// The first byte of a field.
fn start_field(byte: u8) -> (RecordState, RecordAction)
    ensures { csv_step result ≡ start_field default_config byte }
{
    if byte == b'"' {
        (RecordState::InQuoted, RecordAction::Skip)
    } else {
        in_field(byte)
    }
}

impl RecordState {
    /// The state behind a byte, and what the byte does.
    pub fn step(self, byte: u8) -> (RecordState, RecordAction)
        ensures { csv_step result ≡ step default_config (state_of self) byte }
    {
        match self {
            RecordState::InField => in_field(byte),
            RecordState::StartField => start_field(byte),
            RecordState::InQuoted if byte == b'"' => (RecordState::AfterQuote, RecordAction::Skip),
            RecordState::InQuoted => (RecordState::InQuoted, RecordAction::Copy),
            RecordState::AfterQuote if byte == b'"' => (RecordState::InQuoted, RecordAction::Copy),
            RecordState::AfterQuote => in_field(byte),
            RecordState::StartRecord | RecordState::AfterCr if byte == b'\r' || byte == b'\n' => {
                (RecordState::StartRecord, RecordAction::Skip)
            }
            RecordState::StartRecord | RecordState::AfterCr => start_field(byte),
        }
    }

    /// Whether the end of the text ends a record.
    pub fn ends_at_end(self) -> bool
        ensures { result ≡ ends_at_end (state_of self) }
    {
        match self {
            RecordState::StartRecord | RecordState::AfterCr => false,
            RecordState::StartField
            | RecordState::InField
            | RecordState::InQuoted
            | RecordState::AfterQuote => true,
        }
    }
}

impl RecordAction {
    /// Whether the byte ends a field.
    pub fn ends_field(self) -> bool
        ensures { result ≡ is_field_end (action_of self) }
    {
        match self {
            RecordAction::Skip | RecordAction::Copy => false,
            RecordAction::EndField | RecordAction::EndRecord => true,
        }
    }

    /// Whether the byte ends the record.
    pub fn ends_record(self) -> bool
        ensures { result ≡ is_end (action_of self) }
    {
        match self {
            RecordAction::Skip | RecordAction::Copy | RecordAction::EndField => false,
            RecordAction::EndRecord => true,
        }
    }
}
