// Calls for programs in C or Rust: to check a text, and to run the sheet of a text into text or into numbers.
// include/domgrauja.h says what they mean to a caller.
#![tactic(auto)]

mod answer;
mod exports;

pub use crate::answer::AnswerNumbers;

#[cfg(test)]
mod tests;
