// The rules that every kind of recorder keeps.
ghost use Rattle.std.specs.Prelude.{◌≡◌};
ghost use Rattle.record.specs.Rules.{all_small, allowed_width};

// The most numbers to a state.
pub const MOST_WIDTH: usize = 16;

// The most states that a recorder takes.
pub const MOST_RECORDED: usize = 65_535;

// The largest value that is recorded; the smallest is the same below 0.
pub const MOST_VALUE: i64 = 1_000_000;

// Whether a recorder may be started with this width.
pub fn allowed_width(width: usize) -> bool
    ensures { result ≡ allowed_width width }
{
    (1..=MOST_WIDTH).contains(&width)
}

// Whether each value may be recorded.
pub fn all_small(values: &[i64]) -> bool
    ensures { result ≡ all_small values.now }
{
    values
        .iter()
        .all(|value| (-MOST_VALUE..=MOST_VALUE).contains(value))
}
