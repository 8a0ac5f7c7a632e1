//! The commands, a module each: what a command reads, and its text or its first refusal.

pub mod bytes;
pub mod call_chain;
pub mod expand;
pub mod image;
pub mod listing;
pub mod lookup;
