/// What is said of a sound image.
#[derive(Clone, Copy)]
pub enum ImageText {
    /// How many functions it has.
    Count,
    /// The instructions of each function.
    Code,
}
