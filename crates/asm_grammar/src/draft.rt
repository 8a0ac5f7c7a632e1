use crate::word::Word;

/// A symbol, as the source names it.
#[derive(Drop)]
pub struct SymbolName<'a> {
    pub name: Word<'a>,
    /// Whether `<>` stands behind the name, so that it is visible in its file alone.
    pub fixed: bool,
}

/// An operand, before what it names is known. Offsets count bytes; `address` says that a `$` stands before.
#[derive(Drop)]
pub enum Draft<'a> {
    /// `$e`.
    Imm(u64),
    /// A bare name: a word of the target or a label.
    Bare(Word<'a>),
    /// `off(base)` or `off(base)(index*scale)`.
    Mem {
        off: i64,
        base: Word<'a>,
        index: Option<(Word<'a>, u8)>,
    },
    /// `name+off(SB)`.
    Symbol {
        symbol: SymbolName<'a>,
        off: i64,
        address: bool,
    },
    /// `name+off(FP)`.
    Arg {
        name: Word<'a>,
        off: i64,
        address: bool,
    },
    /// `name+off(SP)`.
    Auto {
        off: i64,
        address: bool,
    },
    /// `n(PC)`: the statement so many source instructions away.
    Away(i64),
    /// `(R1, R2)`.
    Pair(Word<'a>, Word<'a>),
    /// `R<<n`, `R>>n` or `R->n`, of kind 0, 1 or 2.
    Shifted {
        reg: Word<'a>,
        kind: u8,
        amount: u8,
    },
}
