//! What every crate of Goasm speaks of: names, byte strings and lists, statements, the exact text of numbers, and the
//! two traits by which a command reads its files and writes its text.
#![tactic(auto)]

mod bytes;
mod list;
mod mem_shelf;
mod mem_sink;
mod memory;
mod name_set;
mod number;
mod pos;
mod recorder;
mod shelf;
mod sink;
mod slices;
mod statement;
mod text;

pub use bytes::{Bytes, Name};
pub use list::List;
pub use mem_shelf::MemShelf;
pub use mem_sink::MemSink;
pub use memory::Memory;
pub use name_set::NameSet;
pub use number::{digit_value, read_number, show_decimal, show_hex};
pub use pos::{LAST_LINE, Pos};
pub use recorder::Recorder;
pub use shelf::{Shelf, ShelfNo};
pub use sink::{Failed, Sink};
pub use slices::{behind, behind_or_empty};
pub use statement::{Function, Operand, Stmt};
pub use text::Text;
