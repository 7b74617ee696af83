// The feed without readings.
ghost use Rattle.std.specs.Prelude.{None as Nothing, refl};

use crate::feed::Feed;

// Has no reading anywhere.
#[derive(Clone, Copy, Debug, PartialEq, Eq)]
pub struct Silent;

// What silence means.
impl Feed for Silent {
    // No number for any variable and state.
    ghost readings = { λ s v k. Nothing };

    // Always none.
    fn reading(&self, _variable: usize, _state: usize) -> Option<i64> {
        None
    }

    // Nowhere is a reading, so there is none outside the ranges.
    ghost elsewhere = { λ s v k e. refl };
}
