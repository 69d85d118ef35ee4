// The marks of a lane.
ghost use Rattle.lane_chart.specs.ChartView.{mark_shown};
ghost use Rattle.lane_chart.specs.SvgText.{across, badge, badge_head, badges, close_disc, close_letter, close_stroke, colour, last_badge, last_badges, room_at, stroke};
ghost use Rattle.lane_chart.specs.declared.layout.Layout.TheVariants as layout;
ghost use Rattle.std.specs.Prelude.{◌≡◌, ◌++◌, OnOk, map};

use crate::bars::across;
use crate::chart::{Mark, Weight};
use crate::escape::{push_escaped, push_text};
use crate::heaviest::{heavier, lighter};
use crate::layout::{Layout, mark_room};
use std::alloc::Global;
use tuple_edge::OutOfMemory;

// The last place of the page where a mark has room.
const LAST_ROOM: u32 = 1_070;

// The colour's name of a weight.
pub(crate) fn colour(weight: Weight) -> &'static str
    ensures { result.now ≡ colour weight }
{
    match weight {
        Weight::Alarm => "alarm",
        Weight::Turn => "turn",
        Weight::Note => "note",
    }
}

// Where there is room for a mark: at its own place, or right of the mark before it.
fn room_at(free: u32, at: u32) -> u32
    ensures { result ≡ room_at free at }
{
    free.max(at)
}

// Appends the stroke of a mark and the disc of its letter, where lanes have room.
fn push_stroke_roomy(
    out: &mut Vec<u8>,
    alloc: Global,
    at: u32,
    room: u32,
) -> Result<(), OutOfMemory>
    ensures { OnOk result (out.new.items ≡ out.old.items ++ stroke layout.Roomy at room) }
{
    let piece = format!(in alloc;
        "<path d='M{at} 31V17L{room} 14'/><circle cx='{room}' cy='7' r='7'/><text x='{room}' y='11'>"
    )?;
    push_text(out, &piece)
}

// Appends the stroke of a mark where lanes stand close.
#[tactic(auto, unfolding(crate::specs::SvgText::close_stroke))]
fn push_close_stroke(
    out: &mut Vec<u8>,
    alloc: Global,
    at: u32,
    room: u32,
) -> Result<(), OutOfMemory>
    ensures { OnOk result (out.new.items ≡ out.old.items ++ close_stroke at room) }
{
    let piece = format!(in alloc; "<path d='M{at} 10H{room}'/>")?;
    push_text(out, &piece)
}

// Appends the disc of its letter there.
#[tactic(auto, unfolding(crate::specs::SvgText::close_disc))]
fn push_close_disc(out: &mut Vec<u8>, alloc: Global, room: u32) -> Result<(), OutOfMemory>
    ensures { OnOk result (out.new.items ≡ out.old.items ++ close_disc room) }
{
    let piece = format!(in alloc; "<circle cx='{room}' cy='5' r='5'/>")?;
    push_text(out, &piece)
}

// Appends the beginning of the letter there.
#[tactic(auto, unfolding(crate::specs::SvgText::close_letter))]
fn push_close_letter(out: &mut Vec<u8>, alloc: Global, room: u32) -> Result<(), OutOfMemory>
    ensures { OnOk result (out.new.items ≡ out.old.items ++ close_letter room) }
{
    let piece = format!(in alloc; "<text class='close' x='{room}' y='8'>")?;
    push_text(out, &piece)
}

// Appends the stroke of a mark and the disc of its letter, where lanes stand close.
fn push_stroke_close(
    out: &mut Vec<u8>,
    alloc: Global,
    at: u32,
    room: u32,
) -> Result<(), OutOfMemory>
    ensures { OnOk result (out.new.items ≡ out.old.items ++ stroke layout.Close at room) }
{
    push_close_stroke(out, alloc, at, room)?;
    push_close_disc(out, alloc, room)?;
    push_close_letter(out, alloc, room)
}

// Appends the stroke of a mark and the disc of its letter.
fn push_stroke(
    out: &mut Vec<u8>,
    alloc: Global,
    layout: Layout,
    at: u32,
    room: u32,
) -> Result<(), OutOfMemory>
    ensures { OnOk result (out.new.items ≡ out.old.items ++ stroke layout at room) }
{
    match layout {
        Layout::Roomy => push_stroke_roomy(out, alloc, at, room),
        Layout::Close => push_stroke_close(out, alloc, at, room),
    }
}

// Appends the beginning of a mark.
#[tactic(auto, unfolding(crate::specs::SvgText::badge_head))]
fn push_badge_head(out: &mut Vec<u8>, weight: Weight, title: &str) -> Result<(), OutOfMemory>
    ensures { OnOk result (out.new.items ≡ out.old.items ++ badge_head weight title.now) }
{
    push_text(out, "<g class='")?;
    push_text(out, colour(weight))?;
    push_text(out, "'><title>")?;
    push_escaped(out, title)?;
    push_text(out, "</title>")
}

// Appends a mark.
#[tactic(auto, unfolding(crate::specs::SvgText::badge))]
fn push_badge(
    out: &mut Vec<u8>,
    alloc: Global,
    layout: Layout,
    at: u32,
    room: u32,
    mark: &Mark,
) -> Result<(), OutOfMemory>
    ensures { OnOk result (out.new.items ≡ out.old.items ++ badge layout at room (mark_shown mark.now)) }
{
    push_badge_head(out, mark.weight, &mark.title)?;
    push_stroke(out, alloc, layout, at, room)?;
    push_escaped(out, mark.letter)?;
    push_text(out, "</text></g>\n")
}

// Appends a mark at the last place of the page.
fn push_last_badge(
    out: &mut Vec<u8>,
    alloc: Global,
    layout: Layout,
    columns: usize,
    mark: &Mark,
) -> Result<(), OutOfMemory>
    ensures { OnOk result (out.new.items ≡ out.old.items ++ last_badge layout columns (mark_shown mark.now)) }
{
    push_badge(
        out,
        alloc,
        layout,
        across(columns, mark.column),
        LAST_ROOM,
        mark,
    )
}

// Appends the marks that share the last place, the heaviest of them on top.
fn push_last_badges(
    out: &mut Vec<u8>,
    alloc: Global,
    layout: Layout,
    columns: usize,
    first: &Mark,
    marks: &[Mark],
) -> Result<(), OutOfMemory>
    ensures { OnOk result (out.new.items ≡ out.old.items ++ last_badges layout columns (mark_shown first.now) (map mark_shown marks.now)) }
{
    let mut held = first;
    for mark in marks {
        push_last_badge(out, alloc, layout, columns, lighter(held, mark))?;
        held = heavier(held, mark);
    }
    push_last_badge(out, alloc, layout, columns, held)
}

// Appends the marks of a lane, each where there is room for it.
pub(crate) fn push_badges(
    out: &mut Vec<u8>,
    alloc: Global,
    layout: Layout,
    columns: usize,
    marks: &[Mark],
) -> Result<(), OutOfMemory>
    ensures { OnOk result (out.new.items ≡ out.old.items ++ badges layout columns 0 (map mark_shown marks.now)) }
{
    let mut free = 0;
    for (place, mark) in marks.iter().enumerate() {
        let at = across(columns, mark.column);
        let room = room_at(free, at);
        if room >= LAST_ROOM {
            return push_last_badges(out, alloc, layout, columns, mark, &marks[place + 1..]);
        }
        push_badge(out, alloc, layout, at, room, mark)?;
        free = room + mark_room(layout);
    }
    Ok(())
}
