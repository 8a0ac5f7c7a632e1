//! Where the functions and the data of a build stand, and the addresses of its symbols.
#![tactic(auto)]

mod addressing;
mod laws;
mod meanings;
mod planning;
mod sizes;
mod symbols;

pub use addressing::{TEXT_ADDRESS, addresses_of};
pub use laws::padded_sizes_add_up;
pub use planning::{Plan, plan_build};
pub use symbols::{growth_address, unit_addresses};
