// Runs sheets: the six calls on an engine, and the law that every run keeps.
#![tactic(auto)]

mod advancing;
mod calling;
mod engine;
mod events;
mod looking;

pub use crate::engine::Engine;
pub use crate::events::MOST_ASKED;
pub use calls::{Cause, Denial, Ending, NotAdvanced, NotLoaded, Progress, Report};
pub use load::{Refusal, Sheet};
pub use meaning::{LeftOpen, Stop};
