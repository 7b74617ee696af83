// Feeds: what one means, the one without readings, and the list of records.
#![tactic(auto)]

mod feed;
mod list;
mod silent;

pub use crate::feed::{Feed, STATES, VARIABLES};
pub use crate::list::{ListFeed, Reading};
pub use crate::silent::Silent;
