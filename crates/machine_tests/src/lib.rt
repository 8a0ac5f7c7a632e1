//! Tests of the crates about machines: what their clauses don't say, with values from the manuals, from
//! processors and from binutils. One module a crate under test.
#![tactic(auto)]

#[cfg(test)]
mod disassembly;
#[cfg(test)]
mod effects;
#[cfg(test)]
mod linked;
#[cfg(test)]
mod relaxation;
#[cfg(test)]
mod target;
