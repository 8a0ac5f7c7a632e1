/// A line with its bytes, which begin where those of the line before it end.
#[derive(Clone, Copy, Debug, Default, PartialEq, Eq)]
pub struct Row {
    pub end: u32,
    pub depth: u32,
    /// The file's number in the build.
    pub file: u32,
    pub line: u32,
}
