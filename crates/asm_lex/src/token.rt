use crate::spelling::Spelling;
use goasm_base::{List, Pos};

/// What a token is.
#[derive(Clone, Copy, Debug, PartialEq, Eq)]
pub enum Kind {
    /// A name: an ASCII letter, `_`, U+00B7 or U+2215, and then these and digits.
    Word,
    /// A number below 2^64, with its value.
    Number(u64),
    /// A text in double quotes.
    Text,
    /// An operator or a mark, as `+` or `<>`.
    Sign,
    /// The end of a statement.
    End,
}

/// A token of a source, whose bytes it borrows.
#[derive(Debug, Drop)]
pub struct Token<'a> {
    /// The file, and the line on which it stands.
    pub pos: Pos,
    /// Whether another token ends directly before it.
    pub glued: bool,
    /// What it is.
    pub kind: Kind,
    /// Its bytes as they are written, a text's with its quotes and escapes. An end's are `;` or a newline, also at
    /// the end of a file.
    pub text: Spelling<'a>,
}

/// The tokens of one file, in their order.
#[derive(Debug, Drop)]
pub struct Tokens<'a> {
    /// The file's number in the build.
    pub file: u32,
    /// The tokens. The last one is an end.
    pub list: List<Token<'a>>,
}
