//! Dumps: the text of a recorded state of a machine, with its program counter, its stack pointer, its link register and ranges of
//! its memory.
#![tactic(auto)]

mod digits;
mod dump;
mod fault;
mod header;
mod line;
mod marks;
mod range;
mod search;

pub use dump::Dump;
pub use fault::DumpNo;
