// Of several marks at one place the heaviest is seen.
ghost use Rattle.lane_chart.specs.ChartView.{mark_shown};
ghost use Rattle.lane_chart.specs.Heaviest.{heavier, lighter};
ghost use Rattle.std.specs.Prelude.{◌≡◌, nat_lt};

use crate::chart::Mark;

// Whether a mark is heavier than the one that is held.
fn outweighs(held: &Mark, next: &Mark) -> bool
    ensures { result ≡ nat_lt next.now.rank held.now.rank }
{
    next.rank < held.rank
}

// The heavier of two marks, of equals the first.
pub(crate) fn heavier<'a>(held: &'a Mark, next: &'a Mark) -> &'a Mark
    ensures { mark_shown result.now ≡ heavier (mark_shown held.now) (mark_shown next.now) }
{
    if outweighs(held, next) { next } else { held }
}

// The other one.
pub(crate) fn lighter<'a>(held: &'a Mark, next: &'a Mark) -> &'a Mark
    ensures { mark_shown result.now ≡ lighter (mark_shown held.now) (mark_shown next.now) }
{
    if outweighs(held, next) { held } else { next }
}
