//! The lines by which refusals are told: a file's name, a line or an offset in it, and a code.
#![tactic(auto)]

mod dump_lines;
mod image_lines;
mod lines;
mod message;
mod refusal;

pub use lines::push_place;
pub use message::line_of;
pub use refusal::Refusal;
