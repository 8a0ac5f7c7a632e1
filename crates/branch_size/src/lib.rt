//! The sizes of a function's instructions: which of its branches need their long form, and where each instruction
//! stands.
#![tactic(auto)]

mod code;
mod first_lines;
mod forms;
mod goals;
mod rows;
mod size_no;
mod sizing;

pub use goals::{Goals, find_goals};
pub use least_forms::Sizes;
pub use size_no::SizeNo;
pub use sizing::{one_size, size};
