//! An image, linked from the units of a build: exactly where nothing is wrong with the build, and else its first refusal. Each image that
//! is written is sound.
#![tactic(auto)]

mod laws;
mod linking;
mod standing;
mod writing;

pub use laws::linked_is_sound;
pub use linking::link;
