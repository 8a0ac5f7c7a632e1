//! Parts at places of bytes: one word for "this part stands at this place", with its lemmas, and the few calls by which
//! the writers of binary formats lay parts behind one another.
#![tactic(auto)]

mod push;

pub use push::{pad, push_part, push_u32, push_u64, push_words};
