use crate::effect::Atom;

/// A condition: of the flags, or of registers. Comparisons take their atoms modulo 2^width.
#[derive(Clone, Copy, Debug, Default, PartialEq, Eq)]
pub enum Cond {
    /// The carry flag is set: CS and LO of amd64, HS of arm64.
    #[default]
    Carry,
    /// CC and HS of amd64, LO of arm64.
    NoCarry,
    /// EQ.
    Zero,
    /// NE.
    NotZero,
    /// MI.
    Negative,
    /// PL.
    NotNegative,
    /// OS of amd64, VS of arm64.
    Over,
    /// OC of amd64, VC of arm64.
    NotOver,
    /// PS of amd64.
    ParityEven,
    /// PC of amd64.
    ParityOdd,
    /// LS of amd64: carry or zero is set.
    CarryOrZero,
    /// HI of amd64: neither is set.
    NeitherCarryNorZero,
    /// HI of arm64: carry is set and zero isn't.
    CarryNotZero,
    /// LS of arm64: carry is clear or zero is set.
    NoCarryOrZero,
    /// LT: sign and over differ.
    Less,
    /// GE: sign and over agree.
    GreaterOrEqual,
    /// LE: zero is set, or sign and over differ.
    LessOrEqual,
    /// GT: zero is clear, and sign and over agree.
    Greater,
    /// Both atoms have one value: BEQ, CBZ, and what CMPXCHG and CASALD ask.
    Equal { a: Atom, b: Atom, width: u8 },
    /// BNE, CBNZ.
    NotEqual { a: Atom, b: Atom, width: u8 },
    /// a is below b as signed numbers: BLT, SLT.
    SignedBelow { a: Atom, b: Atom, width: u8 },
    /// BGE.
    SignedNotBelow { a: Atom, b: Atom, width: u8 },
    /// a is below b as unsigned numbers: BLTU, SLTU.
    Below { a: Atom, b: Atom, width: u8 },
    /// BGEU.
    NotBelow { a: Atom, b: Atom, width: u8 },
    /// This bit of the atom is set: TBNZ.
    BitSet { a: Atom, bit: u8 },
    /// TBZ.
    BitClear { a: Atom, bit: u8 },
}
