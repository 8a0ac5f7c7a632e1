//! The text of machine code, for any processor, and that of an accepted image, for any target.
#![tactic(auto)]

mod code;
mod image;
mod laws;
mod line;

pub use code::raw;
pub use image::listing;
pub use laws::{one_raw_text, one_text, raw_text_by_reading};
