/// What a build may grow to.
#[derive(Clone, Copy)]
pub struct Limits {
    /// The tokens in all results.
    pub tokens: usize,
    /// The uses of macros and files.
    pub uses: usize,
    /// How deep uses may nest.
    pub nesting: usize,
}

/// How many tokens of a statement may be to be read at once. The limits above speak of what a statement gives; this one
/// is asked as memory is, so that a macro doesn't take more of it than a few of the longest sources.
pub const MOST_PENDING: usize = 1 << 25;
