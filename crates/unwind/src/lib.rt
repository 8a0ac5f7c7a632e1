//! The walk of a stack: from the registers of a machine and the words of its memory to the calls that were made and haven't returned.
#![tactic(auto)]

mod laws;
mod peek;
mod stage;
mod steps;
mod walked;
mod walker;

pub use image_check::{Seen, UnwindNo};
pub use laws::{calls_have_functions, walks_are_chains};
pub use peek::Peek;
pub use stage::{Place, Stage};
pub use walked::Walked;
pub use walker::Walker;
