//! Build lists: the small text file that names what a build takes. Each line is `asm F`, `include F`,
//! `define N V`, `outside SYMBOL ADDRESS` or `entry SYMBOL`, a comment that begins with `#`, or blank.
#![tactic(auto)]

mod fault;
mod form;
mod line;
mod read;
mod reader;
mod symbols;
mod words;

pub use fault::ListNo;
pub use line::{BuildList, LineKind, ListLine};
pub use read::read_list;
