// Reads the lines of a sheet: what each one says after those before it, or its fault; and the law that the fault that is told is the first that applies.
// The law has no code of its own: it stands on the call that loads a text, by way of the law of refusals.
#![tactic(auto)]

mod forms;
mod items;
mod operands;
mod readers;
mod shapes;
mod sizes;
mod words;

pub use crate::items::{Fault, Keyword, OperandSlots, Operands, Role, Roles, Words};
pub use crate::readers::read_line;
