//! A function at its address has one answer: its instructions there with their depths, or the first of its lines that can't hold what it
//! refers to.
//!
//! The crate has a law alone.
#![tactic(auto)]

mod laws;

pub use laws::one_code;
