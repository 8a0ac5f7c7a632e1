//! What an accepted image keeps beside its bytes: sets of numbers, one bit a number, as of the offsets at which instructions
//! begin; and a table that finds the function of an offset. Nothing here knows of instructions.
#![tactic(auto)]

mod bits;
mod buckets;
mod laws;

pub use bits::Bits;
pub use buckets::Buckets;
pub use laws::{none_past_room, one_nearest, one_owner};
