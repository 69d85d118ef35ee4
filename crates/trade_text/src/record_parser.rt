// Records are cut out of bytes that come one by one.
ghost use Rattle.csv.specs.Records.{fields_of, partial_of};
ghost use Rattle.std.specs.Prelude.{◌≡◌, ◌<◌, ◌++◌, ◌∷◌, [], IfErr, IfOk, OnOk, length};
ghost use Rattle.trade_text.specs.StreamRecords.{TakesByte, TakesEnd};
ghost use Rattle.trade_text.specs.declared.error.StreamError.TheVariants as stream;

use crate::{RecordAction, RecordState, StreamError};
use csv::ByteRecord;
use std::alloc::Global;

/// Cuts records out of bytes.
#[derive(Drop)]
pub struct RecordParser {
    state: RecordState,
    field: Vec<u8>,
}

impl RecordParser {
    /// At the start of a text.
    pub fn new(alloc: Global) -> RecordParser
        ensures state { result.state ≡ RecordState.StartRecord }
        ensures field { result.field.items ≡ [] }
    {
        RecordParser {
            state: RecordState::StartRecord,
            field: Vec::new(alloc),
        }
    }

    /// Begins a record: no field is at hand.
    pub fn begin(&mut self)
        ensures field { self.new.field.items ≡ [] }
        ensures state { self.new.state ≡ self.old.state }
    {
        self.field.clear();
    }

    /// Begins a record with the front of a field, which isn't quoted.
    pub fn begin_with(&mut self, front: &[u8]) -> Result<(), StreamError>
        requires { self.old.field.items ≡ [] }
        ensures field { OnOk result (self.new.field.items ≡ front.now) }
        ensures nothing { OnOk result (front.now ≡ [] → self.new.state ≡ self.old.state) }
        ensures in_field { OnOk result (0 < length front.now → self.new.state ≡ RecordState.InField) }
        ensures failed { IfErr result (λ e. e ≡ stream.OutOfMemory) }
    {
        self.field.extend_from_slice(front)?;
        if !front.is_empty() {
            self.state = RecordState::InField;
        }
        Ok(())
    }

    // Ends the field at hand.
    fn end_field(&mut self, fields: &mut ByteRecord) -> Result<(), StreamError>
        requires { partial_of fields.old ≡ [] }
        ensures fields { OnOk result (fields_of fields.new ≡ fields_of fields.old ++ self.old.field.items ∷ []) }
        ensures partial { OnOk result (partial_of fields.new ≡ []) }
        ensures field { OnOk result (self.new.field.items ≡ []) }
        ensures state { self.new.state ≡ self.old.state }
        ensures failed { IfErr result (λ e. e ≡ stream.OutOfMemory) }
    {
        fields.push_field(&self.field)?;
        self.field.clear();
        Ok(())
    }

    /// Takes a byte of a record, and tells whether it ends it.
    pub fn take(&mut self, byte: u8, fields: &mut ByteRecord) -> Result<bool, StreamError>
        requires { partial_of fields.old ≡ [] }
        ensures takes { IfOk result (λ ended. TakesByte self.old (fields_of fields.old) byte ended self.new (fields_of fields.new)) }
        ensures partial { OnOk result (partial_of fields.new ≡ []) }
        ensures failed { IfErr result (λ e. e ≡ stream.OutOfMemory) }
    {
        let (state, action) = self.state.step(byte);
        self.state = state;
        match action {
            RecordAction::Skip => Ok(false),
            RecordAction::Copy => {
                self.field.push(byte)?;
                Ok(false)
            }
            RecordAction::EndField => {
                self.end_field(fields)?;
                Ok(false)
            }
            RecordAction::EndRecord => {
                self.end_field(fields)?;
                Ok(true)
            }
        }
    }

    /// Takes the end of the text, and tells whether it ends a record.
    pub fn take_end(&mut self, fields: &mut ByteRecord) -> Result<bool, StreamError>
        requires { partial_of fields.old ≡ [] }
        ensures takes { IfOk result (λ ended. TakesEnd self.old (fields_of fields.old) ended self.new (fields_of fields.new)) }
        ensures failed { IfErr result (λ e. e ≡ stream.OutOfMemory) }
    {
        if !self.state.ends_at_end() {
            return Ok(false);
        }
        self.end_field(fields)?;
        self.state = RecordState::StartRecord;
        Ok(true)
    }
}
