// The window of a row.
ghost use Rattle.std.specs.Prelude.{◌≡◌, ◌≤ℤ◌, pos};
ghost use Rattle.stream_ops.specs.Windows.{window_of};

use tuple_edge::Row;

// The number of the window that a row's time lies in.
pub(crate) fn window_at(width: i64, row: &Row) -> i64
    requires { pos 1 ≤ℤ width }
    ensures { result ≡ window_of width row.now }
{
    row.time.div_euclid(width)
}
