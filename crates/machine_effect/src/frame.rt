use goasm_base::List;

/// A call that was made and hasn't returned, or the first function of a run.
#[derive(Clone, Copy, Debug, Default, PartialEq, Eq)]
pub struct Frame {
    /// The entry of the function that runs in the frame.
    pub func: u64,
    /// The address of the call instruction; `None` for the first frame.
    pub call: Option<u64>,
    /// The return address.
    pub ret: u64,
    /// The stack pointer at the function's entry.
    pub base: u64,
    /// The address at which the return address is saved, where it is.
    pub slot: Option<u64>,
}

/// The frames of a run at one moment, innermost first.
pub type Calls = List<Frame>;
