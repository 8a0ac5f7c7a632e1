//! The functions of a build that count, with their instructions; and whether each symbol stands for something to which they or its
//! data refer.
#![tactic(auto)]

mod code;
mod laying;
mod references;

pub use code::{Part, UnitCode};
pub use laying::lay_all;
pub use references::{growth_of, judge_references};
