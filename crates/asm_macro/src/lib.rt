//! Macros, conditions and inclusion in Go's assembly source (as in Go's `cmd/asm/internal/lex`): the tokens of
//! sources after all substitutions.
#![tactic(auto)]

mod arguments;
mod builds;
mod built_in;
mod cause;
mod condition;
mod directives;
mod files;
mod limits;
mod macros;
mod mapping;
mod pending;
mod placed;
mod refusal;
mod uses;
mod work;

pub use asm_directive::line_names;
pub use builds::{expand, expand_named, expand_within, greatest_of};
pub use limits::Limits;
pub use refusal::MacroNo;
