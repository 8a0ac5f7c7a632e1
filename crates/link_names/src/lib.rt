//! The names of a build: what each symbol of its units stands for, or the first one that is defined twice; and whether the data
//! that its units give has room where it is declared.
#![tactic(auto)]

mod data;
mod data_no;
mod definition;
mod names;
mod names_no;
mod symbol_no;
mod symbols;

pub use data::judge_data;
pub use data_no::DataNo;
pub use definition::{Definition, Meaning};
pub use names::Names;
pub use names_no::NamesNo;
pub use symbol_no::SymbolNo;
pub use symbols::{judge_addresses, judge_entry, judge_symbol};
