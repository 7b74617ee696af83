// The ends of spans.
ghost use Rattle.std.specs.Prelude.{◌≡◌, ◌<◌, ℕ, Some, position, vec_len};
ghost use Rattle.meaning.specs.WellFormed.{Present};
ghost use Rattle.meaning.specs.Effects.{with_end, put as putting};
ghost use Rattle.board.specs.Outcomes.{outcome_of};
ghost use Rattle.board.specs.Work.{work_of};
ghost use Rattle.board.specs.Store.{has_serial};

use crate::board::Board;
use meaning::Stop;
use value::End;

impl Board {
    // What is known of the end of the span with this serial.
    pub fn end_of(&self, serial: u32) -> End
        ensures { result ≡ (work_of self.now).ends serial }
    {
        match self.place_of(serial) {
            Some(row) => self.end_at(row),
            None => End::Unknown,
        }
    }

    // Puts the end of a span that runs. A contradiction is placed at `place`.
    pub fn put(&mut self, place: u16, end: End, serial: u32) -> Result<bool, Stop>
        requires { Present (work_of self.old).spans serial }
        ensures { outcome_of result (work_of self.new) ≡ putting place end serial (work_of self.old) }
    {
        let Some(row) = self.place_of(serial) else {
            // This cannot be: a span that runs has a row.
            return Ok(false);
        };
        match (self.end_at(row), end) {
            (End::Unknown, End::On | End::Last) => {
                self.set_end(row, end);
                Ok(true)
            }
            (End::On, End::Last) | (End::Last, End::On) => Err(Stop::Contradiction(place)),
            _ => Ok(false),
        }
    }

    // What is known of the end of the span whose row is at this place.
    fn end_at(&self, row: usize) -> End
        requires { row < vec_len self.now.rows }
        ensures { (serial : ℕ) → position (has_serial serial) self.now.rows.items ≡ Some row → result ≡ (work_of self.now).ends serial }
    {
        self.rows[row].end
    }

    // Writes the end of the span whose row is at this place.
    fn set_end(&mut self, row: usize, end: End)
        requires { row < vec_len self.old.rows }
        ensures { (serial : ℕ) → position (has_serial serial) self.old.rows.items ≡ Some row → work_of self.new ≡ with_end end serial (work_of self.old) }
    {
        self.rows[row].end = end;
    }
}
