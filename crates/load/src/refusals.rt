// Why a text is refused.
use lines::Fault;

// A refusal. `Line` and `NoRun` hold the number of the line that is meant, counted from 1.
#[derive(Clone, Copy, Debug, PartialEq, Eq)]
pub enum Refusal {
    // the text is empty or too long
    Length,
    // the last byte does not end a line
    Unended,
    // the first line is not `sheet=2`
    Header,
    // a later line has a fault
    Line(u32, Fault),
    // there is no `run` line; one would have to follow as this line
    NoRun(u32),
}
