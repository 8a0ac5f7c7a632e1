/// What an instruction refers to.
#[derive(Clone, Copy, Debug, PartialEq, Eq)]
pub enum To {
    /// The first instruction of the function's first statement that has one and whose number is at least this.
    Stmt(u32),
    /// The symbol of this number, and an offset in bytes from it.
    Symbol(u32, i64),
    /// The function's first instruction.
    Entry,
    /// The routine that grows the stack.
    Grow,
    /// The first instruction of the block that has the stack grow.
    Block,
    /// The instruction behind that block.
    Past,
}

/// Which part of the address that it refers to an instruction holds.
#[derive(Clone, Copy, Debug, Default, PartialEq, Eq)]
pub enum Part {
    /// All of it: the goal of a branch or a call, or an address relative to the instruction.
    #[default]
    Whole,
    /// The upper bits, in the first instruction of a pair.
    High,
    /// The lower bits, in the second instruction of a pair.
    Low,
}

/// A reference to an address that isn't known until the code is placed.
#[derive(Clone, Copy, Debug, PartialEq, Eq)]
pub struct Refer {
    pub to: To,
    pub part: Part,
}

/// An instruction that stands for a statement or a part of one.
#[derive(Clone, Copy, Debug, Default, PartialEq, Eq)]
pub struct Picked<I> {
    pub instr: I,
    /// What it refers to, where it does.
    pub refer: Option<Refer>,
}
