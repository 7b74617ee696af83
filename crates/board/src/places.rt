// Where the row of a span is.
ghost use Rattle.std.specs.Prelude.{◌≡◌, ◌%◌, ◌≤◌, length, position};
ghost use Rattle.board.specs.Store.{has_serial};

use crate::board::Board;
use crate::row::Row;

// How many hints there are.
pub(crate) const HINTS: usize = 64;

// Which hint a serial has. Spans that run together were mostly opened one soon after another, so mostly each has its own; any other function of the serial would be as right.
pub(crate) fn hint_of(serial: u32) -> usize
    ensures { result ≡ serial % HINTS }
{
    // `as` stays: the rest is below 64, and `try_from` would add an error that cannot come.
    (serial % HINTS as u32) as usize
}

// Writes the place of each row as its hint, where there are fewer rows than before, so that some have moved.
// What a hint says is never taken on trust, so nothing has to be promised of it.
pub(crate) fn hint_moved(hints: &mut [u8; HINTS], rows: &[Row], before: usize)
    requires { length rows.now ≤ 64 }
{
    if rows.len() < before {
        for (place, row) in rows.iter().enumerate() {
            // `as` stays: the place is below 64, and `try_from` would add an error that cannot come.
            hints[hint_of(row.span.serial)] = place as u8;
        }
    }
}

impl Board {
    // The place of the row of the span with this serial, or none. Mostly the hint says it: if the row there has the serial, it is the only one, since serials rise.
    pub(crate) fn place_of(&self, serial: u32) -> Option<usize>
        ensures { result ≡ position (has_serial serial) self.now.rows.items }
    {
        let hint = usize::from(self.hints[hint_of(serial)]);
        match self.rows.get(hint) {
            Some(row) if row.span.serial == serial => Some(hint),
            _ => self.search_place(serial),
        }
    }

    // The same, for which every row is asked.
    fn search_place(&self, serial: u32) -> Option<usize>
        ensures { result ≡ position (has_serial serial) self.now.rows.items }
    {
        self.rows.iter().position(|row| row.span.serial == serial)
    }
}
