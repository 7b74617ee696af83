// What a feed is.
ghost use Rattle.std.specs.Prelude.{◌≡◌, ℕ, ℤ, Option as Maybe};
ghost use Rattle.feed.specs.Readings.{ElsewhereNone};

// The variables that may have readings: 0 to 15.
pub const VARIABLES: usize = 16;

// The states that may have readings: 0 to 65,534.
pub const STATES: usize = 65_535;

// A feed means its readings: for a variable and a state a number or none. Others would call it the input of a run.
// Two feeds are equal when they read the same everywhere. Asking changes nothing.
pub trait Feed {
    // The reading for a variable, and then a state.
    ghost readings: { Self → ℕ → ℕ → Maybe ℤ };

    // The reading for a variable and a state.
    fn reading(&self, variable: usize, state: usize) -> Option<i64>
        ensures answer { result ≡ readings self.now variable state };

    // Outside the ranges there is no reading.
    ghost elsewhere: { (s : Self) → ElsewhereNone (readings s) };
}
