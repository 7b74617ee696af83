// What a visit to a duty works with, and what it comes to.
use meaning::Duty;
use sheet::Sheet;

// The sheet and the feed by which a duty is visited, the state in which it is, and the duty.
// The board and the memory stand beside it, and what the board has to keep is a clause of each rule (`Ready`):
// as fields here, the board's facts would have to be shown again after each step, and each rule would have to say that the borrow stays the same.
#[derive_where(Clone, Copy)]
pub(crate) struct Visit<'a, F> {
    pub(crate) sheet: &'a Sheet,
    pub(crate) feed: &'a F,
    pub(crate) state: u32,
    pub(crate) duty: Duty,
}

// What a visit has come to.
#[derive(Clone, Copy)]
pub struct Visited {
    // whether it has changed something
    pub changed: bool,
    // whether it waited for nothing: then another visit in this state would change nothing
    pub done: bool,
}

// A visit that waits, and has changed nothing.
pub(crate) const WAITING: Visited = Visited {
    changed: false,
    done: false,
};
