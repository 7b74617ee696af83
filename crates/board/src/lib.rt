// The work of one state, held in memory that is reserved once, and the things that a visit does to it.
#![tactic(auto)]

mod answers;
mod board;
mod buckets;
mod duties;
mod ends;
mod known;
mod lists;
mod making;
mod opens;
mod places;
mod row;
mod turning;
mod values;

pub use crate::answers::afterwards;
pub use crate::board::{Board, MOST_DUTIES, MOST_SPANS};
pub use crate::row::Row;
