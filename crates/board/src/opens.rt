// Spans that are opened.
ghost use Rattle.std.specs.Prelude.{◌≡◌, ◌<◌, vec_len};
ghost use Rattle.meaning.specs.Work.{has_opened};
ghost use Rattle.meaning.specs.Effects.{with_span, open_span};
ghost use Rattle.board.specs.Outcomes.{outcome_of};
ghost use Rattle.board.specs.Work.{work_of};

use crate::board::{Board, MOST_DUTIES, MOST_SPANS};
use crate::buckets::{bucket, opened_in};
use crate::places::hint_of;
use crate::row::Row;
use meaning::{Duty, Opening, Span, Stop};

impl Board {
    // Opens a span and adds the duty of its body, once in a state.
    pub fn open(&mut self, opening: Opening) -> Result<bool, Stop>
        ensures { outcome_of result (work_of self.new) ≡ open_span opening (work_of self.old) }
    {
        if self.has_opened(opening) {
            return Ok(false);
        }
        if self.rows.len() >= MOST_SPANS || self.duties.len() >= MOST_DUTIES {
            return Err(Stop::Crowded);
        }
        self.push_span(opening);
        Ok(true)
    }

    // Whether a span was opened so in this state. Mostly the bucket of what follows it says that none was.
    fn has_opened(&self, opening: Opening) -> bool
        ensures { result ≡ has_opened opening (work_of self.now).spans }
    {
        let own = bucket(&opening.follower);
        match self.rows.get(usize::from(self.openings[own])) {
            None => false,
            Some(row) => opened_in(&row.span) == Some(own) && self.search_opened(opening),
        }
    }

    // The same, for which every row is asked.
    fn search_opened(&self, opening: Opening) -> bool
        ensures { result ≡ has_opened opening (work_of self.now).spans }
    {
        self.rows
            .iter()
            .any(|row| row.span.fresh && Some(opening) == row.span.opening)
    }

    // A new span, and the duty of its body.
    fn push_span(&mut self, opening: Opening)
        requires spans { vec_len self.old.rows < 64 }
        requires duties { vec_len self.old.duties.list < 512 }
        ensures { work_of self.new ≡ with_span opening (work_of self.old) }
    {
        let serial = self.next;
        // `as` stays: the place is below 64, and `try_from` would add an error that cannot come.
        let place = self.rows.len() as u8;
        self.hints[hint_of(serial)] = place;
        self.openings[bucket(&opening.follower)] = place;
        self.rows.push_reserved(Row {
            span: Span {
                serial,
                opening: Some(opening),
                fresh: true,
            },
            end: opening.starts,
        });
        self.duties.push(Duty {
            statement: opening.body,
            number: None,
            span: serial,
        });
        self.next = serial + 1;
    }
}
