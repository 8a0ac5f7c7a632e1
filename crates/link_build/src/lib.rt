//! A build that is to be linked, up to the instructions of its functions: its names, what its data and its references lead to, and the
//! functions that its image has, one behind the other.
#![tactic(auto)]

mod build;
mod entry;
mod func;
mod laws;
mod link_no;
mod resolving;

pub use build::Build;
pub use entry::find_entry;
pub use func::{Func, functions_of};
pub use laws::functions_are_sound;
pub use link_no::LinkNo;
pub use resolving::{Resolved, resolve};
