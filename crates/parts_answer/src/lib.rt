//! What an image has beside its code and the bytes of its data is settled by its build, and so is whether that passes a limit.
//!
//! The crate has a law alone.
#![tactic(auto)]

mod laws;

pub use laws::one_fit;
