// What the work of a state is made of, as plain values.
use value::End;

// A duty is what temporal logic calls an obligation: a formula that is to hold from this state on, here a statement, to the end of the span that owes it.
// A number makes it a part of that obligation: for `len` the states that come after this one, for `for` the rounds to go, for `gets` its variable's value.
#[derive(Clone, Copy, Debug, PartialEq, Eq, PartialOrd, Ord)]
pub struct Duty {
    pub statement: u16,
    pub span: u32,
    pub number: Option<i64>,
}

// How a duty opens a span: the statement that opens it, the one that it runs, its end at the start, and the duty that follows it.
// The follower's span is the one in which the new span lies.
#[derive(Clone, Copy, Debug, PartialEq, Eq)]
pub struct Opening {
    pub by: u16,
    pub body: u16,
    pub starts: End,
    pub follower: Duty,
}

// A span is what interval temporal logic calls a subinterval, one that is still running in this state: its first state is known, its last one may not be. The whole interval is the first, with serial 0 and no opening.
// It is fresh in the state that opened it. No serial is used twice in a run.
#[derive(Clone, Copy, Debug, PartialEq, Eq)]
pub struct Span {
    pub serial: u32,
    pub opening: Option<Opening>,
    pub fresh: bool,
}

// What a settled state leaves open.
#[derive(Clone, Copy, Debug, PartialEq, Eq)]
pub enum LeftOpen {
    // a variable has no number; the lowest such
    Variable(u16),
    // every variable has one, and only the end of a span is unknown
    End,
}

// Why a state cannot be recorded.
#[derive(Clone, Copy, Debug, PartialEq, Eq)]
pub enum Stop {
    // no number and no end suits every duty; with the statement where that was met
    Contradiction(u16),
    // the duties leave something open
    Undetermined(LeftOpen),
    // a list of duties or the list of spans has no room for one more
    Crowded,
}
