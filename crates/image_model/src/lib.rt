//! A program's image as a machine sees it: of the instruction at each address what it does there, at which depth of the stack it
//! stands, and in which sequence. With it come the machine's steps and runs over an image, and the calls of each moment.
//!
//! The crate has definitions and laws alone. An image is data without the target whose instructions it was made of, so what is proved
//! of its runs names no register and no instruction.
#![tactic(auto)]

mod laws;

pub use laws::{calls_end, functions_are_sound, image_is_sound, lines_stand, listed_is_text};
