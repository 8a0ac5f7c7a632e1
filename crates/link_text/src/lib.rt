//! The text of an image: the bytes of its functions, one behind the other, and the law that each stands where it was planned.
#![tactic(auto)]

mod laws;
mod text;

pub use laws::functions_stand;
pub use text::text_of;
