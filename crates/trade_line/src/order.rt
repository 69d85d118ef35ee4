// The place of a trade among the rows that come in.
ghost use Rattle.std.specs.Prelude.{◌≡◌, ◌≤◌, ◌-◌, ◌==◌, ◌&&◌, length, if◌then◌else◌};
ghost use Rattle.trade_line.specs.Order.{as_early, is_trade_of, place_behind, spot_at};
ghost use Rattle.trade_text.specs.TradesView.{inputs_in};

use trade_text::Trades;
use tuple_edge::{Input, Row};

/// What tells a trade from others wherever movements come in between: its time, and how many trades of that time stand before it.
#[derive(Clone, Copy, Debug, PartialEq, Eq)]
pub struct Spot {
    pub time: i64,
    pub before: usize,
}

// How many of the trades before a place have this time.
fn as_early(rows: &[Row], place: usize, time: i64) -> usize
    requires { place ≤ length rows.now }
    ensures { result ≡ as_early rows.now place time }
{
    rows[..place].iter().filter(|r| r.time == time).count()
}

/// What tells the trade at a place of its file from others, if it is there.
pub fn spot_at(rows: &[Row], place: usize) -> Option<Spot>
    ensures { result ≡ spot_at rows.now place }
{
    match rows.get(place) {
        None => None,
        Some(row) => Some(Spot {
            time: row.time,
            before: as_early(rows, place, row.time),
        }),
    }
}

// Whether an input is a trade of the time of a spot.
fn is_trade_of(input: &Input, spot: &Spot) -> bool
    ensures { result ≡ is_trade_of spot.now.time input.now }
{
    input.source == 0 && input.row.time == spot.time
}

// Whether it is the one that is looked for: so many are left before that.
fn is_last(here: bool, left: usize) -> bool
    ensures { result ≡ here && (left == 0) }
{
    here && left == 0
}

// How many are left before the one that is looked for.
fn left_behind(here: bool, left: usize) -> usize
    ensures { result ≡ (if here then left - 1 else left) }
{
    if here { left.saturating_sub(1) } else { left }
}

/// The place of a trade among the rows of trades and movements as they come in.
pub fn place_among(inputs: &Trades, spot: &Spot) -> usize
    ensures { result ≡ place_behind spot.now.time spot.now.before (inputs_in inputs.now) }
{
    let count = inputs.rows().len();
    let mut left = spot.before;
    for place in 0..count {
        let here = is_trade_of(&inputs.input(place), spot);
        let found = is_last(here, left);
        if found {
            return place;
        }
        left = left_behind(here, left);
    }
    count
}
