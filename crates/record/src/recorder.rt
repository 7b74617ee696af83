// What a recorder is.
ghost use Rattle.std.specs.Prelude.{◌≡◌, ℕ, ◌+◌, ◌-◌, ◌<◌, ◌≤◌, false, List, [], ◌∷◌, ◌++◌, length, ℤ, if◌then◌else◌};
ghost use Rattle.record.specs.Owned.{LeavesOwner};
ghost use Rattle.record.specs.Rules.{Allowed, Capped, allowed_width, fitting, look_at};

// What a recorder means are its states in a list, its width and its room. Others would call what it keeps a trace.
// An engine rests on `states`, `state_width` and `room_left` alone. The other members are for the owner of a recorder.
pub trait Recorder {
    // The states recorded, the first one first.
    ghost states: { Self → List (List ℤ) };

    // The width: how many numbers a state has.
    ghost state_width: { Self → ℕ };

    // The room: how many states can still be taken.
    ghost room_left: { Self → ℕ };

    // The room that a start gives for a width. It is fixed when the recorder is made.
    ghost capacity: { Self → ℕ → ℕ };

    // The name of the memory that the recorder was lent; 0 for a kind that was lent none.
    ghost memory_name: { Self → ℕ };

    // How many places of the lent memory, from the front, the record is written to; 0 for a kind that was lent none.
    ghost written_length: { Self → ℕ };

    // What a place of the lent memory holds; 0 for a kind that was lent none.
    ghost memory_at: { Self → ℕ → ℤ };

    // Begins an empty record of a width from 1 to 16. Any other width is denied.
    fn start(&mut self, width: usize) -> bool
        ensures answer { result ≡ allowed_width width }
        ensures listed { states self.new ≡ (if result then [] else states self.old) }
        ensures wide { state_width self.new ≡ (if result then width else state_width self.old) }
        ensures roomy { room_left self.new ≡ (if result then capacity self.old width else room_left self.old) }
        ensures capped { Capped (capacity self.old) }
        ensures reached { written_length self.new ≡ (if result then 0 else written_length self.old) }
        ensures untouched { (k : ℕ) → memory_at self.new k ≡ memory_at self.old k }
        ensures owner { LeavesOwner capacity memory_name written_length memory_at self.old self.new };

    // Adds a state for which there is room, with as many values as the width says, and none beyond ±1,000,000. Any other is denied.
    fn take(&mut self, state: &[i64]) -> bool
        ensures answer { result ≡ fitting (room_left self.old) (state_width self.old) state.now }
        ensures listed { states self.new ≡ (if result then states self.old ++ state.now ∷ [] else states self.old) }
        ensures wide { state_width self.new ≡ state_width self.old }
        ensures roomy { room_left self.new ≡ room_left self.old - (if result then 1 else 0) }
        ensures further { written_length self.old ≤ written_length self.new }
        ensures denied { result ≡ false → written_length self.new ≡ written_length self.old }
        ensures kept { (k : ℕ) → k < written_length self.old → memory_at self.new k ≡ memory_at self.old k }
        ensures owner { LeavesOwner capacity memory_name written_length memory_at self.old self.new };

    // How many states are recorded.
    fn count(&self) -> usize
        ensures { result ≡ length (states self.now) };

    // The width. It is an allowed one, also where the recorder was not started yet.
    fn width(&self) -> usize
        ensures answer { result ≡ state_width self.now }
        ensures allowed { Allowed (state_width self.now) };

    // The room. With the states recorded it makes up the capacity for the width.
    fn room(&self) -> usize
        ensures answer { result ≡ room_left self.now }
        ensures whole { length (states self.now) + room_left self.now ≡ capacity self.now (state_width self.now) }
        ensures capped { Capped (capacity self.now) };

    // The value of a variable in a state, or none for what is not there.
    fn look(&self, state: usize, variable: usize) -> Option<i64>
        ensures { result ≡ look_at (states self.now) state variable };
}
