use crate::frame::FrameShape;
use crate::refer::Refer;
use goasm_base::{List, Pos};

/// An instruction of a function that isn't placed yet.
#[derive(Clone, Copy, Debug, Default, PartialEq, Eq)]
pub struct Line<I> {
    pub instr: I,
    /// What it refers to, where it does.
    pub refer: Option<Refer>,
    /// Where it comes from in the sources.
    pub pos: Pos,
    /// By how many bytes the stack pointer lies below its value at the function's entry.
    pub depth: u32,
    /// The number of the statement that it belongs to, counted from 0 in its function. The instructions by which
    /// the function enters its frame, and those that check or grow the stack, belong to none.
    pub stmt: Option<u32>,
}

/// A function's instructions, not placed yet.
#[derive(Debug, Drop)]
pub struct Body<I> {
    pub frame: FrameShape,
    /// In the order in which they will stand.
    pub code: List<Line<I>>,
}

/// An instruction at its place.
#[derive(Clone, Copy, Debug, Default, PartialEq, Eq)]
pub struct Placed<I> {
    /// Its address.
    pub at: u64,
    /// How many bytes it has.
    pub len: u8,
    pub instr: I,
}
