// Users of recorders and feeds, proved against what these mean and against nothing else of them, and two kinds of a maker's own.
#![tactic(auto)]

mod constant;
mod copying;
mod filling;
mod nowhere;
mod owning;
mod owning_text;

pub use crate::constant::Constant;
pub use crate::copying::copy_readings;
pub use crate::filling::fill;
pub use crate::nowhere::Nowhere;
pub use crate::owning::keep;
pub use crate::owning_text::keep_text;
