// Cash movements, judged one after the other.
ghost use Rattle.std.specs.Prelude.{◌≡◌, ◌≤◌, IfErr, IfOk, Ok, OnOk, length, option_map};
ghost use Rattle.csv.specs.Records.{fields_of};
ghost use Rattle.record_faults.specs.Alone.{CashColumns, IsRecord, StandsForCash, at_record};
ghost use Rattle.record_faults.specs.EachRecord.{cash_faults, fault_in};
ghost use Rattle.trade_text.specs.Cash.{cash_in, cash_of};
ghost use Rattle.trade_text.specs.Columns.{cash_columns};
ghost use Rattle.trade_text.specs.Limits.{max_input_bytes};
ghost use Rattle.trade_text.specs.Refusals.{IsRefusalOf};

use crate::each::{Judge, at_record, faults_under};
use crate::written::{lone_header, lone_record};
use csv::ByteRecord;
use std::alloc::Global;
use trade_text::{CashError, CashField, MAX_INPUT_BYTES, ReadError, open_file, read_cash};
use tuple_edge::OutOfMemory;

// Judges cash movements under a header. Each is read alone under it.
#[derive(Drop)]
pub(crate) struct CashJudge {
    // The text of the header, behind an empty line.
    front: Vec<u8>,
}

// Why a text is refused as a file of cash movements that has room for one, if it is.
#[tactic(auto, using(crate::proofs::Judges::accepted_none, crate::proofs::Judges::fault_is))]
fn refusal_of(alloc: Global, text: &[u8]) -> Result<Option<CashError>, OutOfMemory>
    ensures fault { IfOk result (λ fault. fault ≡ fault_in (cash_of text.now 1)) }
    ensures short { OnOk result (length text.now ≤ max_input_bytes) }
{
    // A header and a record of more bytes than a file may have find no room.
    if text.len() as u64 > MAX_INPUT_BYTES {
        return Err(OutOfMemory);
    }
    match read_cash(alloc, text, 1) {
        Ok(_) => Ok(None),
        Err(ReadError::OutOfMemory) => Err(OutOfMemory),
        Err(error) => Ok(Some(error)),
    }
}

// The same refusal, if there is one, of the record of this number.
fn numbered(rec: u64, alone: Option<CashError>) -> Option<CashError>
    ensures { result ≡ option_map (at_record rec) alone }
{
    match alone {
        None => None,
        Some(error) => Some(at_record(rec, error)),
    }
}

impl CashJudge {
    // Judges cash movements under this header, if it is one.
    #[tactic(auto, using(crate::proofs::Judges::opens_cash, crate::proofs::Judges::refuses_cash))]
    fn under(alloc: Global, header: &ByteRecord) -> Result<CashJudge, CashError>
        ensures stands { IfOk result (λ judge. IsRecord (fields_of header.now)
            → (columns : CashColumns) × (cash_columns (fields_of header.now) ≡ Ok columns) × StandsForCash judge columns) }
        ensures refused { IfErr result (λ error. IsRecord (fields_of header.now) → IsRefusalOf error (cash_columns (fields_of header.now))) }
    {
        let front = lone_header(alloc, header)?;
        if let Some(error) = refusal_of(alloc, &front)? {
            return Err(error);
        }
        Ok(CashJudge { front })
    }

    // Why a record is refused that is read alone under the header, if it is.
    fn alone(&self, alloc: Global, fields: &ByteRecord) -> Result<Option<CashError>, OutOfMemory>
        ensures { IfOk result (λ fault. (columns : CashColumns) → StandsForCash self.now columns → IsRecord (fields_of fields.now)
            → fault ≡ fault_in (cash_in 2 columns (fields_of fields.now))) }
    {
        let text = lone_record(alloc, &self.front, fields)?;
        let fault = refusal_of(alloc, &text)?;
        Ok(fault)
    }
}

impl Judge<CashField> for CashJudge {
    ghost use Rattle.record_faults.specs.Alone.{CashColumns, StandsForCash};
    ghost use Rattle.trade_text.specs.Cash.{cash_in};

    ghost Kept = { CashColumns };

    ghost row_in = { cash_in };

    ghost stands = { StandsForCash };

    fn fault(
        &mut self,
        alloc: Global,
        rec: u64,
        fields: &ByteRecord,
    ) -> Result<Option<CashError>, OutOfMemory> {
        let alone = self.alone(alloc, fields)?;
        Ok(numbered(rec, alone))
    }
}

/// The same of a file of cash movements, of which so many have room, as [`trade_faults`](crate::trade_faults) of trades.
#[tactic(auto, using(crate::proofs::Judges::cash_headless, crate::proofs::Judges::cash_refused))]
pub fn cash_faults(
    alloc: Global,
    bytes: &[u8],
    room: u32,
) -> Result<Vec<Option<CashError>>, CashError>
    ensures answers { IfOk result (λ faults. cash_faults bytes.now room ≡ Ok faults.items) }
    ensures few { IfOk result (λ faults. length faults.items ≤ length bytes.now) }

    // Want of memory alone is no refusal of the file.
    ensures refused { IfErr result (λ error. IsRefusalOf error (cash_faults bytes.now room)) }
{
    let mut fields = ByteRecord::new(alloc);
    let mut reader = open_file(alloc, bytes, &mut fields)?;
    let mut judge = CashJudge::under(alloc, &fields)?;
    let most = bytes.len();
    let faults = faults_under(
        alloc,
        &mut judge,
        &mut reader,
        &mut fields,
        room as usize,
        most,
    )?;
    Ok(faults)
}
