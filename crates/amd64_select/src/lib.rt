//! amd64 as a target: the instruction list of `amd64_table` with its effects and texts, the spellings and the reader
//! of `amd64_code`, and the laws that hold of every processor. The public source is the Intel 64 and IA-32 Architectures
//! Software Developer's Manual, volume 2.
#![tactic(auto)]

mod aiming;
mod amd64;
mod frames;
mod guard;
mod listed;
mod operands;
mod selecting;
mod width;

pub use amd64::Amd64;
pub use listed::Listed;
