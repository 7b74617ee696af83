// A maker's own recorder: one that keeps nothing.
ghost use Rattle.record.specs.Rules.{Allowed};
ghost use Rattle.std.specs.Prelude.{◌≡◌, [], pos};

use record::{Recorder, allowed_width};

// A recorder that keeps nothing: its capacity is 0 for every width.
#[derive(Drop, Debug, PartialEq, Eq)]
pub struct Nowhere {
    width: usize,
    // The width is an allowed one.
    ghost wide: { Allowed width },
}

impl Nowhere {
    // A recorder without room, started with width 1.
    pub fn new() -> Nowhere
        ensures { result.width ≡ 1 }
    {
        Nowhere { width: 1 }
    }
}

// What a recorder that keeps nothing is where none is named. That it starts with width 1 is said by each that makes a recorder: a word for it would be no shorter.
impl Default for Nowhere {
    // The one that `new` makes.
    fn default() -> Nowhere
        ensures { result.width ≡ 1 }
    {
        Nowhere::new()
    }
}

// What a recorder that keeps nothing means.
impl Recorder for Nowhere {
    // No state.
    ghost states = { λ s. [] };

    // The width that it was started with.
    ghost state_width = { λ s. s.width };

    // No room.
    ghost room_left = { λ s. 0 };

    // No room for any width.
    ghost capacity = { λ s w. 0 };

    // No memory was lent.
    ghost memory_name = { λ s. 0 };

    // No place was written.
    ghost written_length = { λ s. 0 };

    // No place holds anything.
    ghost memory_at = { λ s k. pos 0 };

    // Sets the width.
    fn start(&mut self, width: usize) -> bool {
        if !allowed_width(width) {
            return false;
        }
        self.width = width;
        true
    }

    // Denies every state.
    fn take(&mut self, _state: &[i64]) -> bool {
        false
    }

    // Always 0.
    fn count(&self) -> usize {
        0
    }

    // The width that it was started with.
    fn width(&self) -> usize {
        self.width
    }

    // Always 0.
    fn room(&self) -> usize {
        0
    }

    // Always none.
    fn look(&self, _state: usize, _variable: usize) -> Option<i64> {
        None
    }
}
