// What a sheet means, how a state is settled, and that settling is right.
#![tactic(auto)]

mod duties;
mod laws;
mod left_open;

pub use crate::duties::{Duty, LeftOpen, Opening, Span, Stop};
pub use crate::laws::{first_duty, most_visits};
