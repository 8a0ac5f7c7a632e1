use image_check::{Seen, UnwindNo};

/// A frame that was given, and what leads to its caller.
#[derive(Clone, Copy)]
pub struct Place {
    /// The frame.
    pub seen: Seen,
    /// Its stack pointer.
    pub sp: u64,
    /// The link register, in the first frame of a target that has one.
    pub link: Option<u64>,
}

/// Where a walk stands.
#[derive(Clone, Copy)]
pub enum Stage {
    /// Before its first frame, with the machine's registers.
    Start {
        /// The address of the next instruction.
        pc: u64,
        /// The stack pointer.
        sp: u64,
        /// The link register, where there is one.
        link: u64,
    },
    /// At a frame.
    At(Place),
    /// Behind the last frame.
    End,
    /// Where it can't go on.
    No(UnwindNo),
}
