use thiserror::Error;

/// A frame of a stack, as a walk shows it.
#[derive(Clone, Copy, Debug, PartialEq, Eq)]
pub struct Seen {
    /// The number of the function that runs in it, in the image's table.
    pub func: u32,
    /// Where the function goes on: the machine's own address in the first frame, a return address in the others.
    pub pc: u64,
    /// The place that tells its source line: `pc` in the first frame, `pc - 1`, the last byte of the call, in the others.
    pub look: u64,
}

/// Why a walk can't go on.
#[derive(Clone, Copy, Debug, PartialEq, Eq, Error)]
pub enum UnwindNo {
    /// The address of the machine is in no function.
    #[error("U1 {0:#018x}")]
    U1(u64),
    /// No instruction begins at the address of the machine.
    #[error("U2 {0:#018x}")]
    U2(u64),
    /// The memory has no word at the address of the return address.
    #[error("U3 {0:#018x}")]
    U3(u64),
    /// A return address lies in the text, but no call ends there, or only one of a routine that grows the stack.
    #[error("U4 {0:#018x}")]
    U4(u64),
    /// The stack pointer and the depth, or the stack pointer of the caller, pass 2^64 - 1.
    #[error("U5 {0:#018x} {1}")]
    U5(u64, u64),
}
