//! What a statement of Go assembly says on amd64: the names of instructions and registers, the instruction that a name
//! and operands stand for, and the rows that turn some statements into others.
//!
//! An instruction's name and operands are told once, by `amd64_table`, for its text. Here they are read back: `listed`
//! finds the one instruction that is written so.
#![tactic(auto)]

mod aiming;
mod alias;
mod computation;
mod control;
mod listing;
mod moves;
mod names;
mod operands;
mod registers;
mod rows;
mod words;

pub use aiming::{aimed, distance, long_form, short_form};
pub use alias::{Alias, alias_named};
pub use listing::listed;
pub use names::mnemonic_named;
pub use operands::{byte_of, long_of};
pub use registers::{cc_named, reg_named, xmm_named};
pub use rows::{Resolved, Spoken, Written, chosen, meaning_of, stands};
pub use words::{is_condition, is_register, is_tls, is_word, spoken};
