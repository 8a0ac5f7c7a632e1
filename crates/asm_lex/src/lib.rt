//! The tokens of Go's assembly source: words, numbers, texts, signs and the ends of statements (as in Go's
//! `cmd/asm/internal/lex`, which takes more kinds).
#![tactic(auto)]

mod byte_faults;
mod comments;
mod cut;
mod fault;
mod lexer;
mod lines;
mod numbers;
mod piece;
mod refusal;
mod signs;
mod spelling;
mod texts;
mod token;
mod words;

pub use lexer::lex;
pub use refusal::LexNo;
pub use spelling::Spelling;
pub use token::{Kind, Token, Tokens};
