//! The rules of an image: which images are sound, and why one is refused, K1 to K5.
//!
//! The crate has definitions and laws alone: they say what `image_check` finds, and what follows of an image that it accepts.
#![tactic(auto)]

mod check_no;
mod laws;

pub use check_no::{CheckNo, ProfileNo};
pub use laws::{one_function, one_refusal, refused_is_unsound, sound_in_model};
