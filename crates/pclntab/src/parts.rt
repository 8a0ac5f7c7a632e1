use goasm_base::{List, Name};
use pcvalue::Run;

/// What a function table is written from. Contracts ask for `AreParts` of `specs/Parts.antt`.
#[derive(Debug, Drop)]
pub struct TableParts {
    /// The size in bytes of the steps by which pc-value tables count places: 1, 2 or 4.
    pub quantum: u8,
    /// The address of the text, at most 2^64 - 2^32.
    pub text_start: u64,
    /// The length of the text in bytes, where the last function ends.
    pub text_len: u32,
    /// The names of the source files.
    pub files: List<Name>,
    /// The functions, by address.
    pub funcs: List<FuncPart>,
}

/// A function of a table that is to be written.
#[derive(Debug, Drop)]
pub struct FuncPart {
    /// Its name with the package's path. Readers see it up to a first zero byte.
    pub name: Name,
    /// Its entry, in bytes from the text's address.
    pub entry: u32,
    /// The size of its arguments and results in bytes, or -2^31 where it isn't known.
    pub args: i32,
    /// Its flags, as `Func::flags` tells them.
    pub flags: u8,
    /// The line of its declaration.
    pub start_line: i32,
    /// The stack depths in bytes, by places from its entry.
    pub depth: List<Run>,
    /// The source files, as indices of the table's files.
    pub file: List<Run>,
    /// The lines.
    pub line: List<Run>,
}
