// What the calls on an engine answer, and what they do.
#![tactic(auto)]

mod answers;
mod numbers;

pub use crate::answers::{
    Cause, Condition, Denial, Ending, NotAdvanced, NotLoaded, Progress, Report,
};
