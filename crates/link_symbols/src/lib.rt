//! The symbol table of an image that is linked: which symbols it has, in which order, and how long their names are together.
#![tactic(auto)]

mod defined;
mod laws;
mod names;
mod table;

pub use defined::Defined;
pub use laws::symbol_laws;
pub use names::names_size;
pub use table::symbols_of;
