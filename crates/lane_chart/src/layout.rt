// How much room lanes have on a page.
ghost use Rattle.lane_chart.specs.Layouts.{lane_pitch, layout_of, mark_room};
ghost use Rattle.std.specs.Prelude.{◌≡◌, ◌≤◌};

/// How much room a lane has.
#[derive(Clone, Copy)]
pub enum Layout {
    /// Its marks stand above its bar.
    Roomy,
    /// Its marks stand on its bar: there are many lanes.
    Close,
}

// How many lanes stand at most on a page where they have room.
const MOST_ROOMY: usize = 24;

// How much room the lanes of a page have.
pub(crate) fn layout_of(lanes: usize) -> Layout
    ensures { result ≡ layout_of lanes }
{
    if lanes > MOST_ROOMY {
        Layout::Close
    } else {
        Layout::Roomy
    }
}

// How far apart lanes are.
pub(crate) fn lane_pitch(layout: Layout) -> u128
    ensures value { result ≡ lane_pitch layout }
    ensures small { result ≤ 38 }
{
    match layout {
        Layout::Roomy => 38,
        Layout::Close => 10,
    }
}

// How much room a mark takes.
pub(crate) fn mark_room(layout: Layout) -> u32
    ensures value { result ≡ mark_room layout }
    ensures small { result ≤ 15 }
{
    match layout {
        Layout::Roomy => 15,
        Layout::Close => 11,
    }
}
