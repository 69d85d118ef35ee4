// The text of `trio`.
ghost use Rattle.std.specs.Fmt.{signed_decimal};
ghost use Rattle.std.specs.List.{flat_map};
ghost use Rattle.std.specs.Prelude.{◌≡◌, ◌++◌, IfOk, OnOk, codes, string_bytes};
ghost use Rattle.trio_command.specs.Text.{emitted_line, ended_line, first_line, trio_text};
ghost use Rattle.trio_core.specs.CoreView.{flow_in, inputs_of};
ghost use Rattle.trio_core.specs.Stands.{StandsFor};
ghost use Rattle.trio_machine.specs.Machine.{State};
ghost use Rattle.trio_machine.specs.Sound.{IsSound};
ghost use Rattle.trio_state.specs.GroupsText.{groups_text};

use std::alloc::Global;
use trade_text::{Trades, push_symbol};
use trio_core::TrioCore;
use trio_drain::drain;
use trio_state::write_groups;
use tuple_edge::{Drained, OutOfMemory, Row};

// The first line, and the lines of the groups.
fn groups_of(core: &TrioCore, alloc: Global) -> Result<Vec<u8>, OutOfMemory>
    ensures { IfOk result (λ text. (s : State) → StandsFor core.now s → text.items ≡ first_line ++ groups_text (flow_in core.now) s) }
{
    let mut text = Vec::new(alloc);
    text.extend_from_slice(b"trio 1\n")?;
    let groups = write_groups(core, alloc)?;
    text.extend_from_slice(&groups)?;
    Ok(text)
}

// The line that says how a drain ended.
fn ended_line(alloc: Global, drained: Drained) -> Result<String, OutOfMemory>
    ensures { IfOk result (λ line. string_bytes line ≡ ended_line drained) }
{
    match drained {
        Drained::Whole => {
            let line = format!(in alloc; "drained whole\n")?;
            Ok(line)
        }
        Drained::Lost { stage, part } => {
            let line = format!(in alloc; "drained lost {stage}.{part}\n")?;
            Ok(line)
        }
    }
}

// The line of a row up to its symbol.
fn row_front(alloc: Global, row: &Row) -> Result<String, OutOfMemory>
    ensures { IfOk result (λ text. string_bytes text ≡ codes "row " ++ (signed_decimal row.now.time ++ (codes "," ++ (signed_decimal row.now.account ++ codes ",")))) }
{
    let (time, account) = (row.time, row.account);
    let text = format!(in alloc; "row {time},{account},")?;
    Ok(text)
}

// The line of a row behind its symbol.
fn row_sums(alloc: Global, row: &Row) -> Result<String, OutOfMemory>
    ensures { IfOk result (λ text. string_bytes text ≡ codes "," ++ (signed_decimal row.now.qty ++ (codes "," ++ (signed_decimal row.now.value ++ codes "\n")))) }
{
    let (qty, value) = (row.qty, row.value);
    let text = format!(in alloc; ",{qty},{value}\n")?;
    Ok(text)
}

// Appends the line of a row that was emitted.
fn push_row(
    text: &mut Vec<u8>,
    alloc: Global,
    trades: &Trades,
    row: &Row,
) -> Result<(), OutOfMemory>
    ensures { OnOk result (text.new.items ≡ text.old.items ++ emitted_line trades.now.symbols row.now) }
{
    let front = row_front(alloc, row)?;
    text.extend_from_slice(front.as_bytes())?;
    push_symbol(text, trades, row)?;
    let sums = row_sums(alloc, row)?;
    text.extend_from_slice(sums.as_bytes())?;
    Ok(())
}

// Appends the lines of rows that were emitted.
fn push_rows(
    text: &mut Vec<u8>,
    alloc: Global,
    trades: &Trades,
    rows: &[Row],
) -> Result<(), OutOfMemory>
    ensures { OnOk result (text.new.items ≡ text.old.items ++ flat_map (emitted_line trades.now.symbols) rows.now) }
{
    for row in rows {
        push_row(text, alloc, trades, row)?;
    }
    Ok(())
}

// The text of `trio` of the state that a core stands for. The core is drained with it.
pub(crate) fn drained_text(
    core: &mut TrioCore,
    alloc: Global,
    trades: &Trades,
) -> Result<Vec<u8>, OutOfMemory>
    ensures { IfOk result (λ text. (s : State) → StandsFor core.old s → IsSound (flow_in core.old) s
        → text.items ≡ trio_text core.old.plan (inputs_of core.old) trades.now.symbols s) }
{
    core.known();
    let mut text = groups_of(core, alloc)?;
    let drained = drain(core)?;
    let line = ended_line(alloc, drained)?;
    text.extend_from_slice(line.as_bytes())?;
    push_rows(&mut text, alloc, trades, core.emitted())?;
    Ok(text)
}
