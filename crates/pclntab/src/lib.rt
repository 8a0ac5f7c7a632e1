//! The function table of a Go program in the form that Go 1.20 writes, or in that of Go 1.18: for each function its name
//! and its tables of stack depths, files and lines (`pclntab`; Go's `runtime/symtab.go` and `internal/abi/symtab.go`).
#![tactic(auto)]

mod fault;
mod func;
mod funcs;
mod judge;
mod laws;
mod names;
mod parts;
mod pc_tables;
mod places;
mod stock;
mod table;
mod words;
mod writing;

pub use fault::TableNo;
pub use func::Func;
pub use laws::written_lengths;
pub use parts::{FuncPart, TableParts};
pub use table::Table;
pub use writing::write;
