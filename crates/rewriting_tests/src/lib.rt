//! Tests of the crates that make code of a source's functions, on sources and for amd64: `obj_rewrite`, `branch_size` and
//! `unit_listing`, a module for each; what they do for a target with a link register, and with branches of short reach, stands apart.
#![tactic(auto)]

#[cfg(test)]
mod bodies;
#[cfg(test)]
mod goal_tests;
#[cfg(test)]
mod linked;
#[cfg(test)]
mod listing_tests;
#[cfg(test)]
mod reach_tests;
#[cfg(test)]
mod rewrite_tests;
#[cfg(test)]
mod size_tests;
#[cfg(test)]
mod units;
