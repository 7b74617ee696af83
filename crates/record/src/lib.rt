// Recorders: what one means, the rules that all of them keep, the table over lent numbers, and the text in lent bytes.
#![tactic(auto)]

mod placing;
mod reading_back;
mod recorder;
mod rules;
mod table;
mod text_recorder;

pub use crate::placing::{put_bytes, put_line};
pub use crate::recorder::Recorder;
pub use crate::rules::{MOST_RECORDED, MOST_VALUE, MOST_WIDTH, all_small, allowed_width};
pub use crate::table::TableRecorder;
pub use crate::text_recorder::TextRecorder;
