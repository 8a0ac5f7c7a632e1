//! The text of a call chain: the stack that a dump recorded, a line for each frame.
#![tactic(auto)]

mod laws;
mod line;
mod stack;
mod words;

pub use laws::{kept_runs_are_printed, one_chain};
pub use stack::{ChainNo, chain};
