//! The data of a build: which `GLOBL`s count, and the bytes that its `DATA` statements give, one behind the other.
#![tactic(auto)]

mod bytes;
mod kept;
mod laws;
mod writing;

pub use bytes::value_bytes;
pub use kept::{KeptValue, kept_values, sizes_of};
pub use laws::last_write_stands;
