//! What is known at each moment of a run over a sound image that leaves saved return addresses alone: where the return address of
//! each call stands, and that its frames are those of the calls made and not yet returned.
//!
//! The crate has definitions and laws alone. They're the same with a link register and without one, and name no register and no
//! instruction.
#![tactic(auto)]

mod laws;

pub use laws::{runs_are_known, steps_keep_known};
