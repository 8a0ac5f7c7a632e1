//! Tests of the crates of amd64, a module for each: `amd64_table`, `amd64_code` and `amd64_forms`. Those of `amd64_select` are a crate of
//! their own, `selection_tests`.
#![tactic(auto)]

#[cfg(test)]
mod code_tests;
#[cfg(test)]
mod forms_tests;
#[cfg(test)]
mod table_tests;
