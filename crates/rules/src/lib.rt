// What a visit to a duty and a visit to a span do.
#![tactic(auto)]

mod opening;
mod plain;
mod spans;
mod visit;
mod visiting;
mod waiting;

pub use crate::spans::visit_span;
pub use crate::visit::Visited;
pub use crate::visiting::visit_duty;
