//! The statements of Go's assembly source: labels, mnemonics with their operands, and directives, as "A Quick Guide to
//! Go's Assembler" and `cmd/asm` have them. One statement is read at a time, from its tokens alone.
#![tactic(auto)]

mod cause;
mod directive;
mod draft;
mod expression;
mod names;
mod operand;
mod operator;
mod reader;
mod statement;
mod stop;
mod texts;
mod word;

pub use cause::{Cause, lower};
pub use directive::{DataLine, DataValue, GlobalLine, TextLine};
pub use draft::{Draft, SymbolName};
pub use names::name_of;
pub use reader::Reader;
pub use statement::{CodeLine, Form, Statement, read_statement};
pub use stop::Stop;
pub use word::Word;
