//! The tables of an image's functions, from their placed lines: for each function the runs of its stack depths, files and
//! lines over its bytes.
#![tactic(auto)]

mod files;
mod func_lines;
mod laws;
mod numbering;
mod parts;
mod row;
mod rows;
mod runs;
mod stretch;
mod stretches;
mod used_names;

pub use files::Files;
pub use func_lines::FuncLines;
pub use laws::{finer_stretches, linked_are_told, merged_covers};
pub use parts::table_parts;
pub use runs::runs_of;
pub use stretch::Stretch;
