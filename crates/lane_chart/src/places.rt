// Parts of a length.
ghost use Rattle.lane_chart.specs.Places.{scaled};
ghost use Rattle.std.specs.Prelude.{◌≡◌, ◌≤◌};

// How much of a length a part is of its whole, rounded down, and no more than all of it.
pub(crate) fn scaled(length: u32, whole: u64, part: u64) -> u32
    ensures value { result ≡ scaled length whole part }
    ensures within { result ≤ length }
{
    // Products of such numbers pass 64 bits.
    let scaled = u128::from(part) * u128::from(length) / u128::from(whole.max(1));
    scaled.min(u128::from(length)) as u32
}
