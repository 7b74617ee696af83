// Settles the states of a run, one after another: passes over the work of a state until one changes nothing, in memory that is reserved once.
#![tactic(auto)]

mod duties;
mod pass;
mod passing;
mod settled;
mod settler;
mod skips;
mod spans;
mod stepping;
mod visits;

pub use crate::settled::SettledState;
pub use crate::settler::Settler;
