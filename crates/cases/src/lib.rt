// Reads tables of examples: texts, runs and sheets, with what comes of them.
#![tactic(auto)]

mod kinds;
mod packed;
mod part;
mod table;

pub use crate::kinds::{Example, Kind, LoadedText, ShownText, WorkedSheet};
pub use crate::packed::unpacked;
pub use crate::part::{Part, part_of};
pub use crate::table::{line_number, next_example, reading_of};
