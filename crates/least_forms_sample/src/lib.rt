//! Jumps of amd64 among instructions of one byte, as lines for branch relaxation. It shows that the law of `Lines` can
//! be met, and is what tests and measurements of `least_forms` run on.
#![tactic(auto)]

mod jumps;

pub use jumps::Jumps;
