use goasm_base::{Bytes, Name};

/// What a part of a build is for.
#[derive(Clone, Copy, Debug, PartialEq, Eq)]
pub enum Role {
    /// A source that is assembled.
    Source,
    /// A file that sources include.
    Include,
    /// The value of a macro.
    Value,
}

/// A part of a build: a file that its list names, or the value of a macro that the list defines.
#[derive(Debug, Drop)]
pub struct Part {
    pub role: Role,
    /// The file's number in the build. A value stands in the list, which has number 0.
    pub file: u32,
    /// The line on which the bytes begin.
    pub line: u32,
    /// The file's name, or the macro's.
    pub name: Name,
    pub bytes: Bytes,
}
