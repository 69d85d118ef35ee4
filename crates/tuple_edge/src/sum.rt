// Sums that stop at a bound, so that no total ever wraps.
ghost use Rattle.std.specs.Prelude.{◌≡◌};
ghost use Rattle.tuple_edge.specs.Sum.{IsWithin, saturating_sum};

/// The bound of every field of every row, and of every sum of fields.
pub const BIG: i64 = 9_000_000_000_000_000_000;

/// The sum of two numbers, cut to plus and minus [`BIG`].
pub fn saturating_sum_of(a: i64, b: i64) -> i64
    ensures value { result ≡ saturating_sum a b }
    ensures within { IsWithin result }
{
    let bound = i128::from(BIG);
    (i128::from(a) + i128::from(b)).clamp(-bound, bound) as i64
}
