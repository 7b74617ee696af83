// A table of states in lent numbers.
ghost use Rattle.std.specs.Prelude.{◌≡◌, ◌+◌, ◌*◌, length, pos, slice_index_or};
ghost use Rattle.record.specs.Rows.{table_capacity, rows};
ghost use Rattle.record.specs.Rules.{Allowed};

use crate::recorder::Recorder;
use crate::rules::{MOST_RECORDED, all_small, allowed_width};

// A recorder that writes state k from place k * width of its memory on, and looks it up there.
// The memory is lent and its count and room stand beside it, since a recorder has no heap to hold a `Vec`.
#[derive(Drop)]
pub struct TableRecorder<'a> {
    memory: &'a mut [i64],
    width: usize,
    count: usize,
    room: usize,
    // The width is an allowed one.
    ghost wide: { Allowed width },
    // What is recorded and what is left make up the capacity.
    ghost whole: { count + room ≡ table_capacity (length memory.now) width },
}

impl<'a> TableRecorder<'a> {
    // A recorder over the whole slice, of any length, started with width 1.
    pub fn new(memory: &'a mut [i64]) -> TableRecorder<'a>
        ensures wide { result.width ≡ 1 }
        ensures empty { result.count ≡ 0 }
        ensures roomy { result.room ≡ table_capacity (length memory.old) 1 }
        ensures holds { result.memory.now ≡ memory.old }
        ensures same { result.memory.ghost_name ≡ memory.entry.ghost_name }
    {
        let room = memory.len().min(MOST_RECORDED);
        TableRecorder {
            memory,
            width: 1,
            count: 0,
            room,
        }
    }
}

// What a table means.
impl<'a> Recorder for TableRecorder<'a> {
    // The rows that are written.
    ghost states = { λ s. rows s.width s.count s.memory.now };

    // The width that it was started with.
    ghost state_width = { λ s. s.width };

    // The rows that are left.
    ghost room_left = { λ s. s.room };

    // The whole rows that the memory has, cut at the most states.
    ghost capacity = { λ s w. table_capacity (length s.memory.now) w };

    // The slice that it was made over.
    ghost memory_name = { λ s. s.memory.ghost_name };

    // The places of the rows that are written.
    ghost written_length = { λ s. s.count * s.width };

    // The number at a place of the slice.
    ghost memory_at = { λ s k. slice_index_or s.memory.now k (pos 0) };

    // Sets the width, and counts the rows from the front again. It writes nothing.
    fn start(&mut self, width: usize) -> bool {
        if !allowed_width(width) {
            return false;
        }
        let room = (self.memory.len() / width).min(MOST_RECORDED);
        self.width = width;
        self.count = 0;
        self.room = room;
        true
    }

    // Writes the state behind the last one.
    fn take(&mut self, state: &[i64]) -> bool {
        if self.room == 0 || state.len() != self.width || !all_small(state) {
            return false;
        }
        let at = self.count * self.width;
        self.memory[at..at + self.width].copy_from_slice(state);
        self.count += 1;
        self.room -= 1;
        true
    }

    // The number of rows that are written.
    fn count(&self) -> usize {
        self.count
    }

    // The width that it was started with.
    fn width(&self) -> usize {
        self.width
    }

    // The number of rows that are left.
    fn room(&self) -> usize {
        self.room
    }

    // Reads the value in its row. An `if`, since with `then` the proof does not close.
    fn look(&self, state: usize, variable: usize) -> Option<i64> {
        if state < self.count && variable < self.width {
            Some(self.memory[state * self.width + variable])
        } else {
            None
        }
    }
}
