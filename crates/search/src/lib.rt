// The one search in lists of ordered items, of whatever kind they are, and the order of byte strings.
#![tactic(auto)]

mod bytes;
mod finding;

pub use bytes::compare_bytes;
pub use finding::first_place;
