//! A build has one image, or one refusal, which is told with a place in its files.
//!
//! The crate has definitions and laws alone.
#![tactic(auto)]

mod laws;

pub use laws::{one_link, refusals_are_placed};
