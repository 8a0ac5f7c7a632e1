use crate::cond::Cond;

/// How a number is moved within its width. The count is taken modulo the width.
#[derive(Clone, Copy, Debug, Default, PartialEq, Eq)]
pub enum Shift {
    /// Towards the high bits, zeros behind.
    #[default]
    Left,
    /// Towards the low bits, zeros behind.
    Right,
    /// Towards the low bits, copies of the highest bit behind.
    RightSigned,
    /// Towards the high bits, what leaves comes in below.
    RotateLeft,
    /// Towards the low bits, what leaves comes in above.
    RotateRight,
}

/// An operation bit by bit.
#[derive(Clone, Copy, Debug, Default, PartialEq, Eq)]
pub enum Logic {
    #[default]
    And,
    Or,
    Xor,
    /// The first and the complement of the second (BIC).
    AndNot,
    /// The first or the complement of the second (ORN).
    OrNot,
}

/// How the factors of a product are read.
#[derive(Clone, Copy, Debug, Default, PartialEq, Eq)]
pub enum Signs {
    #[default]
    Unsigned,
    Signed,
    /// The first signed, the second unsigned (MULHSU).
    SignedUnsigned,
}

/// A division. The manuals differ in what a divisor of 0 gives, and in where the dividend stands.
#[derive(Clone, Copy, Debug, Default, PartialEq, Eq)]
pub enum Division {
    /// DIV of amd64: b and a, joined to a number of twice the width with b on top, by c. It fails where c is
    /// 0 or the quotient doesn't fit.
    #[default]
    DoubleQuotient,
    /// The remainder of `DoubleQuotient`, which fails where that fails.
    DoubleRemainder,
    /// IDIV of amd64: the same on signed numbers, rounded towards 0.
    SignedDoubleQuotient,
    /// The remainder of `SignedDoubleQuotient`, with the dividend's sign.
    SignedDoubleRemainder,
    /// UDIV of arm64: a by b, and 0 where b is 0.
    QuotientOrZero,
    /// SDIV of arm64: the same on signed numbers, rounded towards 0; the least number by -1 gives itself.
    SignedQuotientOrZero,
    /// DIVU of riscv64: a by b, and all ones where b is 0.
    QuotientOrOnes,
    /// DIV of riscv64: the same on signed numbers, rounded towards 0; the least number by -1 gives itself.
    SignedQuotientOrOnes,
    /// REMU of riscv64: what a by b leaves, and a where b is 0.
    RemainderOrDividend,
    /// REM of riscv64: the same on signed numbers, with the dividend's sign.
    SignedRemainderOrDividend,
}

/// An operation on 32 bits whose result is sign extended to 64 (the forms of riscv64 that end in W).
#[derive(Clone, Copy, Debug, Default, PartialEq, Eq)]
pub enum Word {
    #[default]
    Add,
    Subtract,
    Shift(Shift),
    Multiply,
    Divide(Division),
}

/// An operation on the atoms a, b and c of a value, at the value's width of w bits. Atoms are taken modulo
/// 2^w, and so is the result, unless a line says otherwise. The operations are those of the Intel 64
/// manual (volume 2), the Arm A64 manual and the RISC-V manual (RV64IMA).
#[derive(Clone, Copy, Debug, Default, PartialEq, Eq)]
pub enum Op {
    /// a.
    #[default]
    Copy,
    /// The lowest b bits of a, sign extended. b is at least 1.
    SignExtend,
    /// What a of up to 128 bits has above its lowest 64 bits.
    Upper,
    /// a with b above its 64 bits, at width 128.
    Pair,
    /// a plus b.
    Add,
    /// a plus b plus the carry flag (ADC).
    AddCarry,
    /// a minus b.
    Subtract,
    /// a minus b minus the carry flag (SBB).
    SubtractBorrow,
    /// a plus c plus b times this factor: the address of LEAQ with an index.
    AddScaled(u8),
    /// a and b, bit by bit.
    Logic(Logic),
    /// a plus b, where b is shifted by c first (shifted registers of arm64).
    AddShifted(Shift),
    /// a minus b, where b is shifted by c first.
    SubtractShifted(Shift),
    /// a and b bit by bit, where b is shifted by c first.
    LogicShifted(Logic, Shift),
    /// The bits that a has in b, and those of c: MOVK.
    Insert,
    /// a shifted by b.
    Shift(Shift),
    /// The low part of a times b.
    Multiply,
    /// a plus b times c (MADD).
    MultiplyAdd,
    /// a minus b times c (MSUB).
    MultiplySubtract,
    /// The high part of a times b: what stands above its lowest w bits.
    MultiplyHigh(Signs),
    /// A quotient or a remainder.
    Divide(Division),
    /// An operation on 32 bits, sign extended.
    Word(Word),
    /// UBFM of arm64 with r as b and s as c: the bits r to s of a, at the bottom; where s is below r, the bits
    /// 0 to s of a, moved up by w minus r.
    BitField,
    /// SBFM of arm64: the same, sign extended from the field's highest bit.
    SignedBitField,
    /// BSF: the number of a's lowest set bit. Where a is 0, any number of 64 bits.
    LowestSet,
    /// BSR: the number of a's highest set bit. Where a is 0, any number of 64 bits.
    HighestSet,
    /// How many bits of a are set (POPCNT).
    CountOnes,
    /// How many bits of a stand above its highest set bit (CLZ).
    LeadingZeros,
    /// The bits of a in reverse order (RBIT).
    ReverseBits,
    /// The bytes of a in reverse order (BSWAP, REV).
    ReverseBytes,
    /// a where the condition holds, otherwise b (CMOV, CSEL).
    Choose(Cond),
    /// a where the condition holds, otherwise b plus 1 (CSINC).
    ChooseIncrement(Cond),
    /// a where the condition holds, otherwise the complement of b (CSINV).
    ChooseInvert(Cond),
    /// a where the condition holds, otherwise minus b (CSNEG).
    ChooseNegate(Cond),
    /// a with its lowest byte replaced by 1 where the condition holds, otherwise by 0 (SETcc).
    SetByte(Cond),
    /// Any number below 2^w (CPUID, RDTSC).
    Any,
}
