use crate::mem::Mem;

/// The five condition flags. arm64 has no parity flag, and its carry after a subtraction means that
/// nothing was borrowed; riscv64 has no flags.
#[derive(Clone, Copy, Debug, Default, PartialEq, Eq)]
pub struct Flags {
    /// A carry out of the highest bit, on amd64 also a borrow into it.
    pub carry: bool,
    /// The result was 0.
    pub zero: bool,
    /// The highest bit of the result.
    pub sign: bool,
    /// The result, read as a signed number, didn't fit.
    pub over: bool,
    /// The lowest byte of the result has an even number of ones.
    pub parity: bool,
}

/// The state of a machine between two instructions.
#[derive(Drop)]
pub struct State {
    /// The address of the instruction that comes next.
    pub pc: u64,
    /// The general registers by their machine numbers. On amd64 register 16 is the base of thread-local
    /// storage, on arm64 register 31 is the stack pointer; the zero registers of arm64 and riscv64 are no
    /// register of the state.
    pub regs: [u64; 33],
    /// The registers X0 to X15 of amd64.
    pub wide: [u128; 16],
    pub flags: Flags,
    pub mem: Mem,
}
