//! The bytes of amd64's instructions: one spelling of each, and a reader that takes exactly these.
//!
//! A spelling has LOCK, a prefix, REX, the opcode, ModRM, SIB, a displacement and a constant, each only where it
//! is needed. The public source is the Intel 64 and IA-32 Architectures Software Developer's Manual, volume 2,
//! "Instruction Format" and the opcode maps.
//!
//! `spell` has a function for each shape of instruction, in the modules `moves`, `computation` and `control`, cut as those
//! of `amd64_table`; `read` has a function for each row of the opcode maps that has several instructions.
#![tactic(auto)]

mod computation;
mod constants;
mod control;
mod decode;
mod fields;
mod head;
mod modrm;
mod moves;
mod one_byte;
mod opcodes;
mod prefixes;
mod reader;
mod registers;
mod rex;
mod spelling;
mod two_bytes;

pub use reader::read;
pub use spelling::{end_of, spell};
