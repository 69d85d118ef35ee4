// Where the inputs of a plan stand in their files.
ghost use Rattle.origin_text.specs.Files.{came_before, file_in, file_of, files_in, input_text, is_of, line_at, line_in, place_of, text_of, texts_of};
ghost use Rattle.std.specs.Prelude.{◌≡◌, ◌≤◌, ◌<◌, ◌^◌, ◌+◌, ◌-◌, ◌==◌, ◌&&◌, ◌++◌, OnOk, if◌then◌else◌, length, slice_get};
ghost use Rattle.trade_text.specs.TradesView.{inputs_in};

use crate::lines::InputLines;
use std::alloc::Global;
use trade_text::{Trades, push_number, push_text};
use tuple_edge::{Input, OutOfMemory, Row};

/// A file of trades or of movements: its name, its text without a mark at the front, and the rows of its records, in their order.
#[derive(Clone, Copy)]
pub struct InputFile<'a> {
    pub name: &'a str,
    pub text: &'a [u8],
    pub rows: &'a [Row],
}

/// Both files that a plan is fed with, and the rows of both in the order in which they come in. Where no movements are given
/// there are no rows of theirs.
#[derive(Clone, Copy)]
pub struct InputFiles<'a> {
    pub trades: InputFile<'a>,
    pub movements: InputFile<'a>,
    pub inputs: &'a Trades,
}

// The file of a source.
fn file_of<'a>(files: &InputFiles<'a>, source: u32) -> InputFile<'a>
    ensures { file_in result ≡ file_of (files_in files.now) source }
{
    if source == 0 {
        files.trades
    } else {
        files.movements
    }
}

// Whether an input is of this source and of a row's time.
fn is_of(input: &Input, source: u32, like: &Row) -> bool
    ensures { result ≡ is_of source like.now.time input.now }
{
    input.source == source && input.row.time == like.time
}

// One more, where it is so.
fn counted(more: bool, count: usize) -> usize
    requires { count + 1 < 2 ^ 64 }
    ensures { result ≡ (if more then count + 1 else count) }
{
    if more { count + 1 } else { count }
}

// How many of the inputs before a place are of this source and of a row's time.
fn came_before(inputs: &Trades, place: usize, source: u32, like: &Row) -> usize
    requires { place ≤ length inputs.now.rows }
    ensures { result ≡ came_before (inputs_in inputs.now) place source like.now.time }
{
    let mut count = 0;
    for i in 0..place {
        count = counted(is_of(&inputs.input(i), source, like), count);
    }
    count
}

// Whether a row is the wanted one: it is of the time, and none before it is left.
fn is_wanted(is_its: bool, left: usize) -> bool
    ensures { result ≡ (is_its && (left == 0)) }
{
    is_its && left == 0
}

// How many rows of the time are left before the wanted one, behind a row.
fn left_behind(is_its: bool, left: usize) -> usize
    ensures { result ≡ (if is_its then left - 1 else left) }
{
    if is_its { left.saturating_sub(1) } else { left }
}

// The place of the row of a time that has so many of that time before it.
fn place_of(rows: &[Row], time: i64, before: usize) -> usize
    ensures value { result ≡ place_of time before rows.now }
    ensures within { result ≤ length rows.now }
{
    let mut left = before;
    for (place, row) in rows.iter().enumerate() {
        let is_its = row.time == time;
        if is_wanted(is_its, left) {
            return place;
        }
        left = left_behind(is_its, left);
    }
    rows.len()
}

// The line of the row of a time, that of another row, that has so many of that time before it in the file of a source.
fn line_of_nth(
    lines: &mut InputLines<'_>,
    source: u32,
    file: &InputFile<'_>,
    like: &Row,
    before: usize,
) -> u64
    requires { text_of lines.old source ≡ file.now.text.now }
    ensures line { result ≡ line_at (file_in file.now) (place_of like.now.time before file.now.rows.now) }
    ensures same { lines.new ≡ lines.old }
{
    let place = place_of(file.rows, like.time, before);
    lines.line(source, place as u64 + 2)
}

// Appends the line of an input in the file of its source, and the file's name.
fn push_line(
    alloc: Global,
    text: &mut Vec<u8>,
    lines: &mut InputLines<'_>,
    source: u32,
    file: &InputFile<'_>,
    before: usize,
    row: &Row,
) -> Result<(), OutOfMemory>
    requires { text_of lines.old source ≡ file.now.text.now }
    ensures text { OnOk result (text.new.items ≡ text.old.items ++ line_in (file_in file.now) before row.now.time) }
    ensures same { lines.new ≡ lines.old }
{
    let line = line_of_nth(lines, source, file, row, before);
    push_text(text, "line ")?;
    push_number(alloc, text, line)?;
    push_text(text, " of ")?;
    push_text(text, file.name)
}

// Appends the line and the file of the input at a place.
fn push_there(
    alloc: Global,
    text: &mut Vec<u8>,
    files: &InputFiles<'_>,
    lines: &mut InputLines<'_>,
    place: usize,
) -> Result<(), OutOfMemory>
    requires there { place < length files.now.inputs.now.rows }
    requires texts { lines.old ≡ texts_of (files_in files.now) }
    ensures text { OnOk result (text.new.items ≡ text.old.items ++ input_text (files_in files.now) place (slice_get (inputs_in files.now.inputs.now) place)) }
    ensures same { lines.new ≡ lines.old }
{
    let Input { source, row } = files.inputs.input(place);
    let before = came_before(files.inputs, place, source, &row);
    let file = file_of(files, source);
    push_line(alloc, text, lines, source, &file, before, &row)
}

// The same if there is one.
pub(crate) fn push_input(
    alloc: Global,
    text: &mut Vec<u8>,
    files: &InputFiles<'_>,
    lines: &mut InputLines<'_>,
    place: usize,
) -> Result<(), OutOfMemory>
    requires { lines.old ≡ texts_of (files_in files.now) }
    ensures text { OnOk result (text.new.items ≡ text.old.items ++ input_text (files_in files.now) place (slice_get (inputs_in files.now.inputs.now) place)) }
    ensures same { lines.new ≡ lines.old }
{
    if place < files.inputs.rows().len() {
        return push_there(alloc, text, files, lines, place);
    }
    Ok(())
}
