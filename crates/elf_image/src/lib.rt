//! ELF images: the profile of ELF-64 files that Goasm links, written and read (ELF-64 Object File Format; System V ABI).
#![tactic(auto)]

mod fault;
mod gaps;
mod group;
mod headers;
mod image;
mod judge;
mod laws;
mod layout;
mod outside;
mod parts;
mod rows;
mod symbol_table;
mod symbols;
mod write_symbols;
mod writer;

pub use fault::ImageNo;
pub use image::{Image, view};
pub use laws::image_lengths;
pub use layout::{Sizes, image_size};
pub use parts::{ImageParts, SymbolPart};
pub use writer::write;
