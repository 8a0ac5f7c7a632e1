/// Where a function stands, and what lies around it.
#[derive(Clone, Copy, Debug, PartialEq, Eq)]
pub struct Site<'a> {
    /// The address of its first instruction.
    pub entry: u64,
    /// The address of each symbol of its unit, by the symbol's number. That of one to which nothing refers doesn't matter.
    pub addresses: &'a [u64],
    /// The address of the routine that grows its stack.
    pub growth: u64,
}
