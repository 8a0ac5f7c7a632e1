use crate::few::Few;
use crate::refer::Picked;

/// The shape of a function's frame, in bytes.
#[derive(Clone, Copy, Debug, Default, PartialEq, Eq)]
pub struct FrameShape {
    /// How many bytes the function's local variables take.
    pub locals: u32,
    /// By how much the stack pointer lies below its value at the entry once the function has its frame.
    pub total: u32,
    /// The frame pointer of the caller (BP on amd64) is saved above the locals.
    pub saves_bp: bool,
}

/// Where a statement stands, as far as its instructions depend on that.
#[derive(Clone, Copy, Debug, Default, PartialEq, Eq)]
pub struct Site {
    /// By how many bytes the stack pointer lies below its value at the function's entry.
    pub depth: u32,
    /// The frame of the function.
    pub frame: FrameShape,
}

/// The check whether the stack has room for a frame, and the block that has it grow.
#[derive(Drop)]
pub struct Guard<I> {
    /// The check: the function's first instructions.
    pub head: Few<Picked<I>>,
    /// The block: a call of the growth routine and a jump back to the function's entry.
    pub block: Few<Picked<I>>,
    /// The block stands directly behind the check; otherwise it ends the function.
    pub in_place: bool,
}
