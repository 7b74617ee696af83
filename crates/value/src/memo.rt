// The memory of evaluation.
ghost use Rattle.std.specs.Prelude.{◌≡◌, false, replicate, IfOk, vec_len};

use sheet::MOST_EXPRESSIONS;
use std::alloc::{AllocError, Global};

// Two tables with a place for each expression of the longest sheet, reserved once, so that evaluation allocates nothing.
// Not in one list with the expressions: the sheet is only lent to an evaluation.
#[derive(Drop)]
pub struct Memo {
    // Whether the expression was seen in this evaluation. A table of its own, since it alone is cleared before each.
    pub(crate) seen: Vec<bool>,
    // The number of an expression that was seen.
    pub(crate) numbers: Vec<i64>,
    ghost seen_room: { vec_len seen ≡ 200 },
    ghost numbers_room: { vec_len numbers ≡ 200 },
}

impl Memo {
    // A memory in which nothing was seen yet.
    pub fn new(heap: Global) -> Result<Memo, AllocError>
        ensures { IfOk result (λ m. m.seen.items ≡ replicate 200 false) }
    {
        let seen = vec![in heap; false; MOST_EXPRESSIONS]?;
        let numbers = vec![in heap; 0; MOST_EXPRESSIONS]?;
        Ok(Memo { seen, numbers })
    }
}
