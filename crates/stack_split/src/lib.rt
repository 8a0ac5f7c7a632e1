//! A function's frame: how large it is, whether the stack is checked before it is made, and the instructions by which
//! the function enters and leaves it. The sizes are those of Go's assemblers (`cmd/internal/obj`), the instructions
//! those of the target.
#![tactic(auto)]

mod frames;
mod sequences;

pub use frames::{checked, frame_of};
pub use sequences::{epilogue, prologue};
