//! Tests of the crates of Go declarations, a module for each: `go_types` and `abi0_layout`.
#![tactic(auto)]

#[cfg(test)]
mod go_types_tests;
#[cfg(test)]
mod layout_tests;
#[cfg(test)]
mod made;
