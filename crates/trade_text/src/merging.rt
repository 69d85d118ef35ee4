// The rows of both files, in order of time.
ghost use Rattle.std.specs.Prelude.{◌≡◌, ◌++◌, ◌≤◌, ◌+◌, IfOk, OnErr, OnOk, false, length, true};
ghost use Rattle.trade_text.specs.Inputs.{IsTimeOrder, from_second, inputs_of_both, rows_from};
ghost use Rattle.trade_text.specs.Limits.{max_inputs};
ghost use Rattle.tuple_edge.specs.Input.{from_first};
ghost use Rattle.trade_text.specs.TradesView.{inputs_in, paired};

use crate::{Cash, Trades};
use std::alloc::Global;
use tuple_edge::{Input, OutOfMemory, Row};

// Appends the rows of a source.
fn push_rows(inputs: &mut Vec<Input>, source: u32, rows: &[Row]) -> Result<(), OutOfMemory>
    ensures { OnOk result (inputs.new.items ≡ inputs.old.items ++ rows_from source rows.now) }
{
    for row in rows {
        inputs.push(Input { source, row: *row })?;
    }
    Ok(())
}

// The rows of both files, in order of time. Where each file is in order already, the sort is one merge.
fn in_time_order(
    alloc: Global,
    trades: &[Row],
    movements: &[Row],
) -> Result<Vec<Input>, OutOfMemory>
    requires { length trades.now + length movements.now ≤ max_inputs }
    ensures { IfOk result (λ inputs. inputs.items ≡ inputs_of_both trades.now movements.now) }
{
    let mut inputs = Vec::new(alloc);
    inputs.reserve(trades.len() + movements.len())?;
    push_rows(&mut inputs, 0, trades)?;
    push_rows(&mut inputs, 1, movements)?;
    inputs.sort_by_key(|input| input.row.time)?;
    Ok(inputs)
}

// The rows of inputs, and the source of each.
fn parted(alloc: Global, inputs: &[Input]) -> Result<(Vec<Row>, Vec<u32>), OutOfMemory>
    ensures inputs { IfOk result (λ parts. paired parts.0.items parts.1.items ≡ inputs.now) }
    ensures many { IfOk result (λ parts. length parts.1.items ≡ length parts.0.items) }
{
    let mut rows = Vec::new(alloc);
    let mut sources = Vec::new(alloc);
    rows.reserve(inputs.len())?;
    sources.reserve(inputs.len())?;
    for input in inputs {
        rows.push(input.row)?;
        sources.push(input.source)?;
    }
    Ok((rows, sources))
}

impl Trades {
    /// Merges the movements of a second source into the trades: the rows of both stand in order of time.
    /// Of those of one time, trades come before movements, and those of a file in its order.
    pub fn merge_cash(&mut self, cash: &Cash) -> Result<(), OutOfMemory>
        requires once { self.old.merged ≡ false }
        requires few { length self.old.rows + length cash.now ≤ max_inputs }
        ensures inputs { OnOk result (inputs_in self.new ≡ inputs_of_both self.old.rows cash.now) }
        ensures order { OnOk result (IsTimeOrder (from_first self.old.rows ++ from_second cash.now) (inputs_in self.new)) }
        ensures merged { OnOk result (self.new.merged ≡ true) }
        ensures symbols { self.new.symbols ≡ self.old.symbols }
        ensures unchanged { OnErr result (self.new ≡ self.old) }
    {
        let alloc = *self.rows.allocator();
        let inputs = in_time_order(alloc, &self.rows, cash.rows())?;
        let (rows, sources) = parted(alloc, &inputs)?;
        self.rows = rows;
        self.sources = sources;
        self.merged = true;
        Ok(())
    }
}
