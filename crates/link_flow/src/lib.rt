//! The functions of a build at their addresses, and whether they may stand there: each reaches what it refers to, goes to no unknown
//! address, and keeps the flow rules.
#![tactic(auto)]

mod around;
mod flow;
mod goals;
mod named;
mod placing;
mod symbols;

pub use around::{Around, surround};
pub use flow::judge_flow;
pub use goals::judge_goals;
pub use placing::place_all;
