//! Tests of the crates that read a build's sources, a module for each: lists, tokens, macros, statements, and the lines
//! that tell refusals.
#![tactic(auto)]

#[cfg(test)]
mod lex_tests;
#[cfg(test)]
mod list_tests;
#[cfg(test)]
mod macro_tests;
#[cfg(test)]
mod parse_tests;
#[cfg(test)]
mod text_tests;
#[cfg(test)]
mod unit_tests;
