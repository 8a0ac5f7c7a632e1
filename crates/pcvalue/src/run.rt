/// A stretch of a function's text over which a pc-value table keeps one value.
#[derive(Clone, Copy, Debug, Default, PartialEq, Eq)]
pub struct Run {
    /// The first place behind the run, in bytes from the function's entry.
    pub end: u32,
    /// The value up to there.
    pub value: i32,
}
