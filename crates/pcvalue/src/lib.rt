//! The pc-value tables of Go's function tables: a value for each place of a function's text, kept as
//! runs of variable-length numbers (`pcvalue` and `step` in Go's `runtime/symtab.go`).
#![tactic(auto)]

mod answer;
mod cover;
mod laws;
mod least;
mod lookup;
mod run;
mod step;
mod varint;
mod writing;

pub use answer::Answer;
pub use cover::values_over;
pub use laws::values_are_settled;
pub use lookup::{is_pc_table, value_at};
pub use run::Run;
pub use writing::encode;
