// Loads sheets from their texts: the sheet that a text spells, or why it is refused; and the laws that this keeps.
#![tactic(auto)]

mod calls;
mod loading;
mod names;
mod reading;
mod refusal_lines;
mod refusal_text;
mod refusals;

pub use crate::loading::Loader;
pub use crate::reading::{ENOUGH, LONGEST_TEXT};
pub use crate::refusal_lines::RefusalLines;
pub use crate::refusals::Refusal;
pub use sheet::Sheet;
