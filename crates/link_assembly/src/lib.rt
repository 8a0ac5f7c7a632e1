//! What a linker assembles into an image, and the law that such an image is sound: functions at their addresses, the parts of the
//! function table that tell of their lines, and the parts of the image.
//!
//! The crate has definitions and a law alone.
#![tactic(auto)]

mod laws;

pub use laws::assembled_is_sound;
