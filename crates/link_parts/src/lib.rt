//! What the image of a build has beside its code and the bytes of its data: its function table, its symbols, and the addresses of what
//! they stand for, with the limit to the length of an image.
#![tactic(auto)]

mod defined;
mod fitting;
mod length;
mod symbols;
mod table;

pub use fitting::{Fitted, fit};
