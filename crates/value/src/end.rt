// What evaluation works with, as plain values.

// What is known, at a state, of the end of its piece: nothing, that the piece goes on, or that this state is its last.
// Not an `Option` of two cases: each rule tells all three apart, and `Some(End::On)` would say no more than `End::On`.
#[derive(Clone, Copy, Debug, PartialEq, Eq)]
pub enum End {
    Unknown,
    On,
    Last,
}

// Why a number is not told at once: nothing says it yet, or it turns on the end or on operands of operands, and more must be asked.
#[derive(Clone, Copy, Debug, PartialEq, Eq)]
pub enum Pending {
    Unknown,
    More,
}
