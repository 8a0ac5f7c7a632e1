/// The greatest line number. A count of lines that reaches it stays there.
pub const LAST_LINE: u32 = 0x7FFF_FFFE;

/// A place in a build's sources.
#[derive(Clone, Copy, Debug, Default, PartialEq, Eq)]
pub struct Pos {
    /// The file's number in the build, from 0.
    pub file: u32,
    /// The line, from 1 to `LAST_LINE`.
    pub line: u32,
}
