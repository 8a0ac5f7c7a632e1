//! Where Go's stable calling convention for assembly, ABI0, puts the arguments and results of a function.
#![tactic(auto)]

mod layout;
mod layout_no;
mod parts;
mod room;

pub use layout::lay_out;
pub use layout_no::LayoutNo;
pub use parts::{Layout, PartOf};
