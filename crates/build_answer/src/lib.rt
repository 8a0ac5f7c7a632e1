//! A build has one answer: what its symbols stand for and the instructions of its functions, or one first thing that is wrong with it.
//!
//! The crate has definitions and a law alone.
#![tactic(auto)]

mod laws;

pub use laws::one_build;
