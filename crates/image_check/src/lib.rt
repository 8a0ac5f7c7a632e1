//! The check of an image: whether its bytes, its function table and the flow of its functions agree, or the first breach; and what an
//! accepted image tells.
#![tactic(auto)]

mod accepted;
mod check;
mod function;
mod goals;
mod judge;
mod marks;
mod padding;
mod profile;
mod range;
mod reading;
mod seen;
mod surroundings;
mod tables;

pub use accepted::Accepted;
pub use check::accept;
pub use image_rules::{CheckNo, ProfileNo};
pub use seen::{Seen, UnwindNo};
