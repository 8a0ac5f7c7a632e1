use crate::condition::Cc;

/// What two operands give, in the order of the manual's digits 0 to 6.
#[derive(Clone, Copy, Debug, Default, PartialEq, Eq)]
pub enum Arithmetic {
    /// The sum.
    #[default]
    Add,
    /// Bit by bit.
    Or,
    /// The sum and the carry flag.
    Adc,
    /// The destination less the source and the carry flag.
    Sbb,
    /// Bit by bit.
    And,
    /// The destination less the source.
    Sub,
    /// Bit by bit.
    Xor,
}

/// Operations on a register and a register or memory, beside those of `Arithmetic`.
#[derive(Clone, Copy, Debug, Default, PartialEq, Eq)]
pub enum RegRm {
    /// Copies the register.
    #[default]
    Mov,
    /// Sets the flags by the register or memory less the register.
    Cmp,
    /// Sets the flags by AND of the two.
    Test,
}

/// Operations on memory and a register, the register being the destination.
#[derive(Clone, Copy, Debug, Default, PartialEq, Eq)]
pub enum MemReg {
    /// Loads.
    #[default]
    Mov,
    /// Sets the flags by the register less the memory.
    Cmp,
    /// The register becomes what the two give.
    Arithmetic(Arithmetic),
}

/// A store of a register's lowest bytes.
#[derive(Clone, Copy, Debug, Default, PartialEq, Eq)]
pub enum StoreSize {
    /// MOVB: one byte.
    #[default]
    Byte,
    /// MOVW: two bytes.
    Word,
}

/// A copy of fewer bytes into a whole register.
#[derive(Clone, Copy, Debug, Default, PartialEq, Eq)]
pub enum Extend {
    /// MOVBLZX: one byte, zeros above.
    #[default]
    ByteZero,
    /// MOVWLZX: two bytes, zeros above.
    WordZero,
    /// MOVBQSX: one byte, copies of its highest bit above.
    ByteSign,
    /// MOVWQSX: two bytes, copies of the highest bit above.
    WordSign,
    /// MOVLQSX: four bytes, copies of the highest bit above.
    LongSign,
}

/// Operations on one register or place in memory.
#[derive(Clone, Copy, Debug, Default, PartialEq, Eq)]
pub enum Unary {
    /// One more. The carry flag stays.
    #[default]
    Inc,
    /// One less. The carry flag stays.
    Dec,
    /// The complement. All flags stay.
    Not,
    /// 0 less the operand.
    Neg,
}

/// Products and quotients on DX and AX.
#[derive(Clone, Copy, Debug, Default, PartialEq, Eq)]
pub enum MulDiv {
    /// AX times the operand into DX and AX.
    #[default]
    Mul,
    /// DX and AX by the operand: the quotient into AX, the remainder into DX.
    Div,
    /// The same on signed numbers.
    Idiv,
}

/// Operations from a register or memory into a register.
#[derive(Clone, Copy, Debug, Default, PartialEq, Eq)]
pub enum RmReg {
    /// The low part of the signed product of the two.
    #[default]
    Imul,
    /// The number of the source's lowest set bit.
    Bsf,
    /// The number of the source's highest set bit.
    Bsr,
    /// How many bits of the source are set.
    Popcnt,
}

/// How a number is shifted.
#[derive(Clone, Copy, Debug, Default, PartialEq, Eq)]
pub enum ShiftOp {
    /// Towards the high bits.
    #[default]
    Shl,
    /// Towards the low bits, zeros above.
    Shr,
    /// Towards the low bits, copies of the highest bit above.
    Sar,
    /// Towards the high bits, what leaves comes in below.
    Rol,
}

/// Operations on the stack.
#[derive(Clone, Copy, Debug, Default, PartialEq, Eq)]
pub enum Stack {
    /// Stores the register's old number below the stack pointer, which moves there.
    #[default]
    Push,
    /// Loads the register from the stack pointer, which moves up before.
    Pop,
}

/// Operations that read and write a place in memory and a register, and may be locked.
#[derive(Clone, Copy, Debug, Default, PartialEq, Eq)]
pub enum Atomic {
    /// CMPXCHG: where AX equals the memory, the memory becomes the register; otherwise AX becomes the memory.
    #[default]
    CompareExchange,
    /// XADD: the memory becomes the sum, the register what the memory was.
    ExchangeAdd,
}

/// Jumps and calls whose distance has four bytes.
#[derive(Clone, Copy, Debug, Default, PartialEq, Eq)]
pub enum Near {
    /// A jump.
    #[default]
    Jmp,
    /// A call, which pushes the address behind it.
    Call,
    /// A jump where the condition holds.
    If(Cc),
}

/// Jumps and calls to an address that a register or memory has.
#[derive(Clone, Copy, Debug, Default, PartialEq, Eq)]
pub enum Indirect {
    /// A jump.
    #[default]
    Jmp,
    /// A call, which pushes the address behind it.
    Call,
}

/// Instructions without operands.
#[derive(Clone, Copy, Debug, Default, PartialEq, Eq)]
pub enum Plain {
    /// Does nothing.
    #[default]
    Pause,
    /// Does nothing that one processor sees.
    Mfence,
    /// Each bit of DX becomes the highest of AX, at 32 bits.
    Cdq,
    /// The same at 64 bits.
    Cqo,
    /// Returns from a call.
    Ret,
    /// A system call.
    Syscall,
    /// AX, BX, CX and DX become any numbers of 32 bits.
    Cpuid,
    /// AX and DX become any numbers of 32 bits.
    Rdtsc,
    /// UD2 of the manual: the run ends.
    Undef,
}
