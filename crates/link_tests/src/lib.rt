//! Tests of the crates that link a build, a module for each: on sources, and the symbols on an image of vectors/elf.
#![tactic(auto)]

#[cfg(test)]
mod code_tests;
#[cfg(test)]
mod functions_tests;
#[cfg(test)]
mod names_tests;
#[cfg(test)]
mod symbols_tests;
#[cfg(test)]
mod units;
