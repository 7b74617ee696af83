// What is printed of a run: its record as text or as numbers, and the lines that close it.
#![tactic(auto)]

mod closing;
mod put_lines;
mod runner;
mod shown;

pub use crate::closing::{Closing, MOST_CLOSING, closing_lines};
pub use crate::shown::{record_numbers, record_text, show};
