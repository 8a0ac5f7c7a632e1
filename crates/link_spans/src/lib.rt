//! What a pc-value table tells of the lines of a function it tells of each of their instructions.
//!
//! The crate has definitions and a law alone. A table is made of lines, and an image is judged by instructions: a line in its long
//! form may have two.
#![tactic(auto)]

mod laws;

pub use laws::lines_cover_instructions;
