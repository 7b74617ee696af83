// The work of one state in memory.
ghost use Rattle.std.specs.Prelude.{◌≡◌, ◌+◌, ◌≤◌, true, map, vec_len, vec_capacity};
ghost use Rattle.board.specs.Store.{rising};
ghost use Rattle.board.specs.Buckets.{row_in, all_lead};

use crate::buckets::BUCKETS;
use crate::duties::DutyList;
use crate::places::HINTS;
use crate::row::Row;
use sheet::MOST_VARIABLES;

// The most duties in a list, and the most spans that are held at once.
pub const MOST_DUTIES: usize = 512;

pub const MOST_SPANS: usize = 64;

// The work of one state: the variables' numbers, the spans with their ends, this state's duties and those carried to the next.
// Arrays, and lists that are reserved once: nothing allocates after a start.
// Clauses read that work by `held`, and not as the board's model: a work has functions in it, and a model's value may have none.
#[derive(Drop)]
pub struct Board {
    pub(crate) values: [Option<i64>; MOST_VARIABLES],
    pub(crate) rows: Vec<Row>,
    // for each value of the last six bits of a serial, the place where a row with such a serial came last
    pub(crate) hints: [u8; HINTS],
    // for each bucket, the place of the row whose span was the last to be opened with what follows it in that bucket
    pub(crate) openings: [u8; BUCKETS],
    pub(crate) duties: DutyList,
    pub(crate) carried: DutyList,
    // the serial of the next span, and what it was when this state began
    pub(crate) next: u32,
    pub(crate) base: u32,
    ghost few: { vec_len rows ≤ 64 },
    ghost room: { 64 ≤ vec_capacity rows },
    ghost ordered: { rising 0 rows.items next ≡ true },
    ghost opened: { all_lead openings (map row_in rows.items) ≡ true },
    ghost counted: { (next ≤ base + vec_len rows) × (base ≤ 4200000) },
}
