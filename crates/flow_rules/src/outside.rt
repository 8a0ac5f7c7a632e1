/// What surrounds a function: addresses of the text that it stands in.
#[derive(Clone, Copy, Debug, PartialEq, Eq)]
pub struct Outside<'a> {
    /// The text's first address.
    pub first: u64,
    /// The address just behind the text.
    pub past: u64,
    /// The entries of all functions of the text, in order.
    pub entries: &'a [u64],
    /// The routines outside the text that have the stack grow, in order.
    pub growth: &'a [u64],
}
