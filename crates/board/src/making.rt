// How a board is made.
ghost use Rattle.std.specs.Prelude.{◌≡◌, [], IfOk};
ghost use Rattle.meaning.specs.Runs.{begun};
ghost use Rattle.board.specs.Work.{work_of};

use crate::board::{Board, MOST_SPANS};
use crate::buckets::BUCKETS;
use crate::duties::DutyList;
use crate::places::HINTS;
use sheet::MOST_VARIABLES;
use std::alloc::{AllocError, Global};

impl Board {
    // A board without spans and duties. Its memory is reserved here, for every state to come.
    pub fn new(heap: Global) -> Result<Board, AllocError>
        ensures { IfOk result (λ b. work_of b ≡ begun [] [] 0) }
    {
        let rows = Vec::with_capacity(heap, MOST_SPANS)?;
        let duties = DutyList::new(heap)?;
        let carried = DutyList::new(heap)?;
        Ok(Board {
            values: [None; MOST_VARIABLES],
            rows,
            hints: [0; HINTS],
            openings: [0; BUCKETS],
            duties,
            carried,
            next: 0,
            base: 0,
        })
    }
}
