// The lines of a script of calls on an engine: what each one calls, and the line that tells what was answered.
#![tactic(auto)]

mod answer;
mod call;
mod reading;

pub use crate::answer::Answer;
pub use crate::call::{Call, read_call};
pub use crate::reading::read_reading;
