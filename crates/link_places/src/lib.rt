//! Where the functions and the data of a build stand: places one behind the other, and the address of what a symbol stands for.
#![tactic(auto)]

mod addresses;
mod key;
mod laws;
mod places;

pub use addresses::Addresses;
pub use laws::places_lie_apart;
pub use places::{Places, places_of};
