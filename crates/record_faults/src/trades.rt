// Trades, judged one after the other.
ghost use Rattle.std.specs.Prelude.{◌≡◌, ◌≤◌, IfErr, IfOk, Ok, OnOk, [], length};
ghost use Rattle.csv.specs.Records.{fields_of};
ghost use Rattle.record_faults.specs.Alone.{IsRecord, StandsFor, comes_behind, fault_among, is_behind_symbol, known_among};
ghost use Rattle.record_faults.specs.EachRecord.{fault_in, trade_faults};
ghost use Rattle.trade_text.specs.Columns.{trade_columns};
ghost use Rattle.trade_text.specs.Limits.{max_input_bytes};
ghost use Rattle.trade_text.specs.Refusals.{IsRefusalOf};
ghost use Rattle.trade_text.specs.Symbols.{texts};
ghost use Rattle.trade_text.specs.Trades.{trade_in, trades_of};
ghost use Rattle.trade_text.specs.declared.columns.TradeColumns.{TradeColumns};
ghost use Rattle.trade_text.specs.declared.trade_file.TradeForm.{TradeForm};

use crate::each::{Judge, at_record, faults_under};
use crate::header::place_in;
use crate::symbols::KnownSymbols;
use crate::written::{lone_header, lone_record};
use csv::ByteRecord;
use std::alloc::Global;
use trade_text::{
    Field, MAX_INPUT_BYTES, MAX_INPUTS, ReadError, TradeError, open_file, read_trades, text_at,
};
use tuple_edge::OutOfMemory;

// Judges trades under a header. Each is read alone under it, and then its symbol is looked up.
#[derive(Drop)]
pub(crate) struct TradeJudge {
    // The text of the header, behind an empty line.
    front: Vec<u8>,
    // The place of the symbol in a record.
    place: usize,
    symbols: KnownSymbols,
}

// Whether a field is read behind the symbol.
fn comes_behind(field: Field) -> bool
    ensures { result ≡ comes_behind field }
{
    match field {
        Field::Time | Field::Account | Field::Symbol => false,
        Field::Side | Field::Qty | Field::Price => true,
    }
}

// Whether a refusal is of a field that is read behind the symbol.
fn is_behind_symbol(error: TradeError) -> bool
    ensures { result ≡ is_behind_symbol error }
{
    match error {
        ReadError::Field { field, .. } => comes_behind(field),
        ReadError::Range { field, .. } => comes_behind(field),
        _ => false,
    }
}

// Why a text is refused as a file of trades, if it is.
#[tactic(auto, using(crate::proofs::Judges::accepted_none, crate::proofs::Judges::fault_is))]
fn refusal_of(alloc: Global, text: &[u8]) -> Result<Option<TradeError>, OutOfMemory>
    ensures fault { IfOk result (λ fault. fault ≡ fault_in (trades_of text.now)) }
    ensures short { OnOk result (length text.now ≤ max_input_bytes) }
{
    // A header and a record of more bytes than a file may have find no room.
    if text.len() as u64 > MAX_INPUT_BYTES {
        return Err(OutOfMemory);
    }
    match read_trades(alloc, text) {
        Ok(_) => Ok(None),
        Err(ReadError::OutOfMemory) => Err(OutOfMemory),
        Err(error) => Ok(Some(error)),
    }
}

impl TradeJudge {
    // Judges trades under this header, if it is one.
    #[tactic(auto, using(crate::proofs::Judges::opens, crate::proofs::Judges::refuses))]
    fn under(alloc: Global, header: &ByteRecord) -> Result<TradeJudge, TradeError>
        ensures stands { IfOk result (λ judge. IsRecord (fields_of header.now)
            → (columns : TradeColumns) × (trade_columns (fields_of header.now) ≡ Ok columns) × StandsFor judge (record { columns = columns; symbols = [] })) }
        ensures refused { IfErr result (λ error. IsRecord (fields_of header.now) → IsRefusalOf error (trade_columns (fields_of header.now))) }
    {
        let front = lone_header(alloc, header)?;
        if let Some(error) = refusal_of(alloc, &front)? {
            return Err(error);
        }
        Ok(TradeJudge {
            front,
            place: place_in(Field::Symbol, header),
            symbols: KnownSymbols::new(alloc),
        })
    }

    // Why a record is refused that is read alone under the header, if it is.
    fn alone(&self, alloc: Global, fields: &ByteRecord) -> Result<Option<TradeError>, OutOfMemory>
        ensures { IfOk result (λ fault. (form : TradeForm) → StandsFor self.now form → IsRecord (fields_of fields.now)
            → fault ≡ fault_in (trade_in 2 (record form { symbols = [] }) (fields_of fields.now))) }
    {
        let text = lone_record(alloc, &self.front, fields)?;
        let fault = refusal_of(alloc, &text)?;
        Ok(fault)
    }

    // Why the record of this number and symbol is refused among the others, if it is, by why it is alone.
    #[tactic(auto, using(crate::proofs::Judges::learned))]
    fn among(
        &mut self,
        alloc: Global,
        rec: u64,
        name: &[u8],
        alone: Option<TradeError>,
    ) -> Result<Option<TradeError>, OutOfMemory>
        ensures fault { IfOk result (λ fault. fault ≡ fault_among rec (texts self.old.symbols.names.keys) name.now alone) }
        ensures known { OnOk result (texts self.new.symbols.names.keys ≡ known_among (texts self.old.symbols.names.keys) name.now alone) }
        ensures front { self.new.front ≡ self.old.front }
        ensures place { self.new.place ≡ self.old.place }
    {
        let has_room = self.symbols.has_room(name);
        match alone {
            None if has_room => {
                self.symbols.learn(alloc, name)?;
                Ok(None)
            }
            Some(error) if has_room || !is_behind_symbol(error) => Ok(Some(at_record(rec, error))),
            _ => Ok(Some(ReadError::Range {
                rec,
                field: Field::Symbol,
            })),
        }
    }
}

impl Judge<Field> for TradeJudge {
    ghost use Rattle.record_faults.specs.Alone.{StandsFor};
    ghost use Rattle.trade_text.specs.Trades.{trade_in};
    ghost use Rattle.trade_text.specs.declared.trade_file.TradeForm.{TradeForm};

    ghost Kept = { TradeForm };

    ghost row_in = { trade_in };

    ghost stands = { StandsFor };

    fn fault(
        &mut self,
        alloc: Global,
        rec: u64,
        fields: &ByteRecord,
    ) -> Result<Option<TradeError>, OutOfMemory> {
        let alone = self.alone(alloc, fields)?;
        let name = text_at(fields, self.place);
        let fault = self.among(alloc, rec, name, alone)?;
        Ok(fault)
    }
}

/// Why each record of a file of trades is refused, if it is, in order behind the header: None stands for a record that is
/// accepted. Each is judged behind those before it that are accepted. A file that is too long, or has no header with each of
/// the six names once, is refused as [`read_trades`] refuses it.
#[tactic(auto, using(crate::proofs::Judges::trades_headless, crate::proofs::Judges::trades_refused))]
pub fn trade_faults(alloc: Global, bytes: &[u8]) -> Result<Vec<Option<TradeError>>, TradeError>
    ensures answers { IfOk result (λ faults. trade_faults bytes.now ≡ Ok faults.items) }
    ensures few { IfOk result (λ faults. length faults.items ≤ length bytes.now) }

    // Want of memory alone is no refusal of the file.
    ensures refused { IfErr result (λ error. IsRefusalOf error (trade_faults bytes.now)) }
{
    let mut fields = ByteRecord::new(alloc);
    let mut reader = open_file(alloc, bytes, &mut fields)?;
    let mut judge = TradeJudge::under(alloc, &fields)?;
    let most = bytes.len();
    let faults = faults_under(
        alloc,
        &mut judge,
        &mut reader,
        &mut fields,
        MAX_INPUTS,
        most,
    )?;
    Ok(faults)
}
