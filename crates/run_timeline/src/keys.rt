// What the cells and the letters of a timeline mean.
ghost use Rattle.lane_chart.specs.ChartView.{cell_key_shown, letter_key_shown};
ghost use Rattle.run_timeline.specs.Keys.{catch_up_keys, cell_key, cell_keys, letter_key, letter_keys, stop_keys, turn_keys};
ghost use Rattle.std.specs.Prelude.{◌≡◌, ◌++◌, IfOk, OnOk, map};

use lane_chart::{Cell, CellKey, LetterKey, Weight};
use std::alloc::Global;
use tuple_edge::OutOfMemory;

// A kind of cell, and its meaning.
fn cell_key(cell: Cell, name: &'static str) -> CellKey
    ensures { cell_key_shown result ≡ cell_key cell name.now }
{
    CellKey { cell, name }
}

// A letter, and its meaning.
fn letter_key(weight: Weight, letter: &'static str, name: &'static str) -> LetterKey
    ensures { letter_key_shown result ≡ letter_key weight letter.now name.now }
{
    LetterKey {
        weight,
        letter,
        name,
    }
}

// What the cells mean.
pub(crate) fn cell_keys(alloc: Global) -> Result<Vec<CellKey>, OutOfMemory>
    ensures { IfOk result (λ keys. map cell_key_shown keys.items ≡ cell_keys) }
{
    let keys = vec![in alloc;
        cell_key(Cell::Strong, "leads"),
        cell_key(Cell::Plain, "runs"),
        cell_key(Cell::Weak, "gathers"),
        cell_key(Cell::Absent, "gone"),
        cell_key(Cell::Active, "makes, emits"),
        cell_key(Cell::Idle, "rests"),
    ]?;
    Ok(keys)
}

// What the letters of losses and of turns mean, the heaviest first.
fn turn_keys(alloc: Global) -> Result<Vec<LetterKey>, OutOfMemory>
    ensures { IfOk result (λ keys. map letter_key_shown keys.items ≡ turn_keys) }
{
    let keys = vec![in alloc;
        letter_key(Weight::Alarm, "!", "pair lost"),
        letter_key(Weight::Alarm, "X", "failed"),
        letter_key(Weight::Turn, "N", "named leader"),
        letter_key(Weight::Turn, "L", "takes the lead"),
        letter_key(Weight::Turn, "O", "pair serves"),
    ]?;
    Ok(keys)
}

// What the letters of stops mean.
fn stop_keys(alloc: Global) -> Result<Vec<LetterKey>, OutOfMemory>
    ensures { IfOk result (λ keys. map letter_key_shown keys.items ≡ stop_keys) }
{
    let keys = vec![in alloc;
        letter_key(Weight::Note, "A", "asked to stop"),
        letter_key(Weight::Note, "S", "stopped"),
        letter_key(Weight::Note, "B", "asked back"),
    ]?;
    Ok(keys)
}

// What the letters of a catch-up mean.
fn catch_up_keys(alloc: Global) -> Result<Vec<LetterKey>, OutOfMemory>
    ensures { IfOk result (λ keys. map letter_key_shown keys.items ≡ catch_up_keys) }
{
    let keys = vec![in alloc;
        letter_key(Weight::Note, "R", "recalled"),
        letter_key(Weight::Note, "G", "gathers state"),
        letter_key(Weight::Note, "M", "gave its state"),
        letter_key(Weight::Note, "C", "caught up"),
    ]?;
    Ok(keys)
}

// Appends what letters mean.
fn push_keys(keys: &mut Vec<LetterKey>, more: &[LetterKey]) -> Result<(), OutOfMemory>
    ensures { OnOk result (map letter_key_shown keys.new.items ≡ map letter_key_shown keys.old.items ++ map letter_key_shown more.now) }
{
    keys.extend_from_slice(more)?;
    Ok(())
}

// What the letters mean, the heaviest first.
pub(crate) fn letter_keys(alloc: Global) -> Result<Vec<LetterKey>, OutOfMemory>
    ensures { IfOk result (λ keys. map letter_key_shown keys.items ≡ letter_keys) }
{
    let mut keys = turn_keys(alloc)?;
    let stops = stop_keys(alloc)?;
    push_keys(&mut keys, &stops)?;
    let catch_ups = catch_up_keys(alloc)?;
    push_keys(&mut keys, &catch_ups)?;
    Ok(keys)
}
