// The numbers of a sheet's expressions, also where only some of its variables are known.
#![tactic(auto)]

mod context;
mod end;
mod evaluation;
mod memo;
mod operate;

pub use crate::end::{End, Pending};
pub use crate::evaluation::{evaluate, evaluate_at_once};
pub use crate::memo::Memo;
pub use crate::operate::in_range;
