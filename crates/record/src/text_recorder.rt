// A record as text in lent bytes.
ghost use Rattle.std.specs.Prelude.{◌≡◌, ◌+◌, ◌*◌, ◌≤◌, length, take, pos, slice_index_or};
ghost use Rattle.record.specs.Rules.{Allowed};
ghost use Rattle.record.specs.ReadingBack.{ReadsBack, read_states};
ghost use Rattle.record.specs.StatesText.{text_capacity, state_bytes, states_text};

use crate::placing::put_state;
use crate::reading_back::read_number_at;
use crate::recorder::Recorder;
use crate::rules::{MOST_RECORDED, all_small, allowed_width};

// The most bytes of the line with a state's number: those of `state=65534` and of the line's end.
const NUMBER_LINE: usize = 12;

// The most bytes of the line with a value: those of `v15=-1000000` and of the line's end.
const VALUE_LINE: usize = 13;

// A recorder that writes each state's text right behind the last one's, and reads values back from there.
#[derive(Drop)]
pub struct TextRecorder<'a> {
    memory: &'a mut [u8],
    width: usize,
    count: usize,
    room: usize,
    written_length: usize,
    // The width is an allowed one.
    ghost wide: { Allowed width },
    // What is recorded and what is left make up the capacity.
    ghost whole: { count + room ≡ text_capacity (length memory.now) width },
    // No state's text is longer than what is kept for it.
    ghost short: { written_length ≤ count * state_bytes width },
    // The bytes that are reached are the text of the states that are read back from them.
    ghost told: { take written_length memory.now ≡ states_text (read_states width count (take written_length memory.now)) },
}

impl<'a> TextRecorder<'a> {
    // A recorder over the whole slice, of any length, started with width 1. The law says that a text tells its states.
    pub fn new(memory: &'a mut [u8]) -> TextRecorder<'a>
        ensures wide { result.width ≡ 1 }
        ensures empty { result.count ≡ 0 }
        ensures roomy { result.room ≡ text_capacity (length memory.old) 1 }
        ensures start { result.written_length ≡ 0 }
        ensures holds { result.memory.now ≡ memory.old }
        ensures same { result.memory.ghost_name ≡ memory.entry.ghost_name }
        ensures law { ReadsBack }
    {
        let room = capacity(memory.len(), 1);
        TextRecorder {
            memory,
            width: 1,
            count: 0,
            room,
            written_length: 0,
        }
    }

    // The length of the record's text, which stands at the front of the memory.
    pub fn length(&self) -> usize
        ensures answer { result ≡ length (states_text (⟦<TextRecorder<'a> as Recorder>⟧.states self.now)) }
        ensures reached { result ≡ ⟦<TextRecorder<'a> as Recorder>⟧.written_length self.now }
        ensures told { take result self.now.memory.now ≡ states_text (⟦<TextRecorder<'a> as Recorder>⟧.states self.now) }
        ensures short { result ≤ length (⟦<TextRecorder<'a> as Recorder>⟧.states self.now) * state_bytes (⟦<TextRecorder<'a> as Recorder>⟧.state_width self.now) }
    {
        self.written_length
    }
}

// How many states of a width so many bytes take.
fn capacity(size: usize, width: usize) -> usize
    requires { Allowed width }
    ensures { result ≡ text_capacity size width }
{
    (size / (NUMBER_LINE + VALUE_LINE * width)).min(MOST_RECORDED)
}

// What a record as text means.
impl<'a> Recorder for TextRecorder<'a> {
    // The states that are read back from the bytes that are reached.
    ghost states = { λ s. read_states s.width s.count (take s.written_length s.memory.now) };

    // The width that it was started with.
    ghost state_width = { λ s. s.width };

    // The states that are left.
    ghost room_left = { λ s. s.room };

    // The states that the memory has bytes for, cut at the most states.
    ghost capacity = { λ s w. text_capacity (length s.memory.now) w };

    // The slice that it was made over.
    ghost memory_name = { λ s. s.memory.ghost_name };

    // The length of the text.
    ghost written_length = { λ s. s.written_length };

    // The byte at a place of the slice.
    ghost memory_at = { λ s k. pos (slice_index_or s.memory.now k 0) };

    // Sets the width, and begins the text at the front again. It writes nothing.
    fn start(&mut self, width: usize) -> bool {
        if !allowed_width(width) {
            return false;
        }
        let room = capacity(self.memory.len(), width);
        self.width = width;
        self.count = 0;
        self.room = room;
        self.written_length = 0;
        true
    }

    // Writes the state's text behind the last one's.
    fn take(&mut self, state: &[i64]) -> bool {
        if self.room == 0 || state.len() != self.width || !all_small(state) {
            return false;
        }
        let written_length = put_state(self.memory, self.written_length, self.count, state);
        self.written_length = written_length;
        self.count += 1;
        self.room -= 1;
        true
    }

    // The number of states that are written.
    fn count(&self) -> usize {
        self.count
    }

    // The width that it was started with.
    fn width(&self) -> usize {
        self.width
    }

    // The number of states that are left.
    fn room(&self) -> usize {
        self.room
    }

    // Reads the value in its line: a line for each value, and one more for each state's number.
    fn look(&self, state: usize, variable: usize) -> Option<i64> {
        if state < self.count && variable < self.width {
            let lines = state * (self.width + 1) + 1 + variable;
            Some(read_number_at(&self.memory[..self.written_length], lines))
        } else {
            None
        }
    }
}
