//! The rules that a function's depth table has to keep, F1 to F9: whether one function keeps them all, or its first breach.
//! `asm_target` has what each rule says, in its definitions `FlowFunction` and `FlowRules`.
//!
//! A function is seen through the trait `Listing` alone, so no rule knows of a target. The check takes no memory, and reads
//! each instruction a few times: `hits` tells how.
#![tactic(auto)]

mod breach;
mod check;
mod code;
mod flow_no;
mod follow;
mod goes;
mod here;
mod hits;
mod listing;
mod outside;
mod places;
mod role;
mod rules;
mod sequence;

pub use check::flow_ok;
pub use flow_no::FlowNo;
pub use outside::Outside;
