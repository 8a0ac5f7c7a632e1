//! What an image is made of that a linker writes, and the law that such an image is sound.
//!
//! The crate has definitions and a law alone. What it asks of an image is what a linker does: functions one behind the other, padded,
//! with their entries and tables in the function table, which keep the flow rules and go to known addresses.
#![tactic(auto)]

mod laws;

pub use laws::made_is_sound;
