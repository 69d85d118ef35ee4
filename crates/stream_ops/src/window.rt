// The open window of a key.
ghost use Rattle.std.specs.Int.{w64};
ghost use Rattle.std.specs.Prelude.{◌≡◌, ◌*ℤ◌, ◌≤ℤ◌, pos, FitsSigned, SomeIff};
ghost use Rattle.stream_ops.specs.Windows.{window_of};

use crate::Sums;
use tuple_edge::{Key, Row};

/// A key's open window, with the sums of its rows.
#[derive(Clone, Copy, Debug, PartialEq, Eq)]
pub struct OpenWindow {
    /// The window's number: the greatest time / width, rounded down, of the key's rows.
    pub number: i64,
    /// The time at which it starts, in seconds: number times width.
    pub start: i64,
    pub sums: Sums,
}

// The number of the window that a row's time lies in.
pub(crate) fn window_at(width: i64, row: &Row) -> i64
    requires { pos 1 ≤ℤ width }
    ensures { result ≡ window_of width row.now }
{
    row.time.div_euclid(width)
}

// The time at which a window starts.
fn start_of(number: i64, width: i64) -> i64
    requires { FitsSigned w64 (number *ℤ width) }
    ensures { result ≡ number *ℤ width }
{
    number * width
}

impl OpenWindow {
    ghost use Rattle.op_spec.specs.Times.{IsTime};
    ghost use Rattle.stream_ops.specs.Steps.{closed_by, opened_by, told_window_row, window_with};
    ghost use Rattle.stream_ops.specs.Sums.{amounts, sums_with};
    ghost use Rattle.op_spec.specs.Limits.{max_window_seconds};

    // The window that a row opens.
    pub(crate) fn at(width: i64, row: &Row) -> OpenWindow
        requires timely { IsTime row.now.time }
        requires width { (pos 1 ≤ℤ width) × (width ≤ℤ max_window_seconds) }
        ensures { result ≡ opened_by width row.now }
    {
        let number = window_at(width, row);
        OpenWindow::starting(
            number,
            start_of(number, width),
            &Sums::none().with(&Sums::of(row)),
        )
    }

    // The window of this number, with these sums. None exactly where its start doesn't fit into 64
    // bits.
    pub(crate) fn numbered(number: &i64, width: i64, sums: &Sums) -> Option<OpenWindow>
        ensures { SomeIff result (FitsSigned w64 (number.now *ℤ width)) (record { number = number.now; start = number.now *ℤ width; sums = sums.now }) }
    {
        match number.checked_mul(width) {
            Some(start) => Some(OpenWindow::starting(*number, start, sums)),
            None => None,
        }
    }

    fn starting(number: i64, start: i64, sums: &Sums) -> OpenWindow
        ensures { result ≡ record { number = number; start = start; sums = sums.now } }
    {
        OpenWindow {
            number,
            start,
            sums: *sums,
        }
    }

    // The window with one more row.
    fn with(&self, row: &Row) -> OpenWindow
        ensures { result ≡ record { number = self.now.number; start = self.now.start; sums = sums_with self.now.sums (amounts row.now) } }
    {
        OpenWindow {
            number: self.number,
            start: self.start,
            sums: self.sums.with(&Sums::of(row)),
        }
    }

    // The open window after a row, which alone would open this one: a late row counts into the
    // window that is open.
    pub(crate) fn joining(&self, had: &Option<OpenWindow>, row: &Row) -> OpenWindow
        ensures { result ≡ window_with had.now self.now row.now }
    {
        match had {
            Some(open) => {
                if open.number < self.number {
                    *self
                } else {
                    open.with(row)
                }
            }
            None => *self,
        }
    }

    // The window that closes where this one opens.
    pub(crate) fn closing(&self, had: &Option<OpenWindow>) -> Option<OpenWindow>
        ensures { result ≡ closed_by had.now self.now }
    {
        match had {
            Some(open) => {
                if self.number > open.number {
                    Some(*open)
                } else {
                    None
                }
            }
            None => None,
        }
    }

    // The row that tells of the window.
    pub(crate) fn row(&self, key: &Key) -> Row
        ensures { result ≡ told_window_row key.now self.now }
    {
        self.sums.row(self.start, key)
    }
}
