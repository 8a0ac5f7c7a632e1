//! Branch relaxation: which branches need their long form. A branch has a short form, which reaches only so far, and
//! a long one. The more branches are long, the further apart the others and their goals are. `least_sizes` finds
//! the assignment in which every short branch reaches, and no branch is long that needn't be.
//!
//! It sees the lines of code through the trait `Lines` alone, and nothing of instructions.
#![tactic(auto)]

mod drops;
mod laws;
mod lines;
mod placing;
mod sizes;
mod solve;
mod work;

pub use laws::one_answer;
pub use lines::Lines;
pub use sizes::{FormsNo, Sizes};
pub use solve::least_sizes;
