/// A stretch of a function's code that has one value. It begins where the stretch before it ends, and the first one with
/// the function.
#[derive(Clone, Copy, Debug, Default, PartialEq, Eq)]
pub struct Stretch {
    /// The first place behind it, in bytes from the function's entry.
    pub end: u32,
    /// Its value: a depth in bytes, a file's index or a line.
    pub value: u32,
}
