//! From the tokens of a source to its functions, data and symbols, or the first refusal. Each statement is read, judged
//! and kept in its turn; names are resolved once all of them are read, since a label may stand behind a jump to it.
#![tactic(auto)]

mod ahead;
mod lines;
mod numbering;
mod parse_no;
mod parser;
mod progress;
mod resolve;
mod step;
mod unit;
mod unit_parts;
mod unread;
mod words;

pub use parse_no::ParseNo;
pub use parser::parse;
pub use unit::{DataPart, GlobalPart, Symbol, Unit};
