//! The statements of Go's assembly source and the forms of its directives (as in Go's `cmd/asm/internal/lex`): what a
//! line is, and what a directive says.
#![tactic(auto)]

mod forms;
mod keyword;
mod marks;
mod names;
mod statements;
mod texts;
mod tokens;

pub use forms::{Mark, NamedMacro, ParameterMap, definition_in, mark_in, name_in, quoted_in};
pub use keyword::{Keyword, keyword_of};
pub use marks::line_names;
pub use names::NameMap;
pub use statements::{Statement, before_newline, behind_first, statements_of};
pub use tokens::{is_end, is_sign, is_word};
