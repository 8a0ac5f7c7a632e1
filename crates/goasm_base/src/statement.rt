use crate::bytes::Name;
use crate::list::List;
use crate::pos::Pos;

/// A function of a source, as `TEXT` and the statements behind it say it.
///
/// A call that takes one relies on `IsValidFunction` of `specs/Statements.antt`.
#[derive(Debug, Drop)]
pub struct Function {
    /// The number of its symbol.
    pub sym: u32,
    /// The flags of its `TEXT`, as Go's `textflag.h` numbers them.
    pub flags: u32,
    /// The size of its locals in bytes.
    pub locals: u32,
    /// The size of its arguments and results in bytes, where it is written.
    pub args: Option<u32>,
    /// Where its `TEXT` stands.
    pub pos: Pos,
    /// Its statements, which labels number from 0.
    pub stmts: List<Stmt>,
}

/// A machine statement: a mnemonic with its operands.
#[derive(Debug, Drop)]
pub struct Stmt {
    /// Where its mnemonic stands.
    pub pos: Pos,
    /// Whether the `LOCK` before it belongs to it.
    pub lock: bool,
    /// The mnemonic, without its suffix.
    pub op: Name,
    /// The letter behind the mnemonic's `.`, as W in `MOVD.W`.
    pub suffix: Option<u8>,
    /// The operands in the order of the source, in which Go's assembler has the destination last.
    pub operands: List<Operand>,
}

/// An operand, as Go's assembler writes it. Offsets count bytes; `address` says that a `$` stands before, so that
/// the address is meant and not what stands there.
#[derive(Debug, Drop)]
pub enum Operand {
    /// `$e`: a constant of 64 bits.
    Imm(u64),
    /// `R`: a word of the target, which names a register or a condition.
    Word(Name),
    /// `off(base)` or `off(base)(index*scale)`: what stands at the sum of these, with a scale of 1, 2, 4 or 8.
    Mem {
        off: i64,
        base: Name,
        index: Option<(Name, u8)>,
    },
    /// `name+off(SB)`: a global symbol, by its number.
    Sym {
        sym: u32,
        off: i64,
        address: bool,
    },
    /// `name+off(FP)`: an argument or a result, counted from the first byte of the arguments.
    Arg {
        name: Name,
        off: i64,
        address: bool,
    },
    /// `name+off(SP)`: a local, counted from the top of the locals, so that its offset is negative.
    Auto {
        off: i64,
        address: bool,
    },
    /// A label or `n(PC)`: a statement of the function, by its number.
    Label(u32),
    /// `(R1, R2)`: two registers, on arm64.
    Pair(Name, Name),
    /// `R<<n`, `R>>n` or `R->n`: a register shifted by `amount` bits, on arm64. The kind is that of the field `shift`
    /// of arm64's instructions: 0 to the left, 1 to the right with zeros, 2 to the right with the sign.
    Shifted {
        reg: Name,
        kind: u8,
        amount: u8,
    },
}
