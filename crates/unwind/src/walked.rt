use image_check::{Seen, UnwindNo};

/// What a step of a walk gives.
#[derive(Clone, Copy, Debug, PartialEq, Eq)]
pub enum Walked {
    /// The next frame, innermost first.
    Frame(Seen),
    /// There is no further frame: a stack ends in the last function, or its return address lies outside the text.
    End,
    /// The walk can't go on.
    No(UnwindNo),
}
