//! What the function table of an image is told of a build's functions: their names, what their `TEXT` says, and their lines with the
//! places of these.
#![tactic(auto)]

mod laws;
mod telling;

pub use laws::laid_lines;
pub use telling::all_lines;
