ghost use Rattle.std.specs.Prelude.{◌≡◌};

use crate::condition::Cc;
use crate::memory::{Mem, Rm};
use crate::op::{
    Arithmetic, Atomic, Extend, Indirect, MemReg, MulDiv, Near, Plain, RegRm, RmReg, ShiftOp,
    Stack, StoreSize, Unary,
};
use crate::reg::Reg;
use crate::width::Width;
use crate::xmm::Xmm;

/// An instruction of amd64, one variant for each list of operands. The bytes are those of the manual's opcode
/// maps, in hexadecimal; `/r` is a register in ModRM's field reg, `/n` a digit there. Operands stand as in Go's
/// assembler, so the destination is mostly the last one.
///
/// Two branches that differ only in the size of their distance are two instructions. What the types leave open is
/// told by `fits`.
#[derive(Clone, Copy, Debug, PartialEq, Eq)]
pub enum Instr {
    /// `MOVQ reg, rm` (89 /r), `CMPQ rm, reg` (39 /r), `TESTQ reg, rm` (85 /r).
    RegRm {
        op: RegRm,
        width: Width,
        reg: Reg,
        rm: Rm,
    },
    /// `ADDQ from, to` (01 /r, and 8 more for each further operation). Only memory is locked (F0).
    ArithmeticReg {
        op: Arithmetic,
        lock: bool,
        width: Width,
        from: Reg,
        to: Rm,
    },
    /// `MOVQ mem, reg` (8B /r), `CMPQ reg, mem` (3B /r), `ADDQ mem, reg` (03 /r, and 8 more each).
    MemReg {
        op: MemReg,
        width: Width,
        mem: Mem,
        reg: Reg,
    },
    /// `ADDQ $constant, to` (83 /n with a byte, 81 /n with four where it isn't a signed byte). Only memory is locked.
    ArithmeticConst {
        op: Arithmetic,
        lock: bool,
        width: Width,
        constant: i32,
        to: Rm,
    },
    /// `CMPQ rm, $constant` (83 /7, 81 /7).
    CompareConst {
        width: Width,
        rm: Rm,
        constant: i32,
    },
    /// `MOVB from, to` (88 /r), `MOVW from, to` (66 89 /r).
    StoreLow {
        size: StoreSize,
        from: Reg,
        to: Mem,
    },
    /// `MOVBLZX from, to` (0F B6 /r), MOVWLZX (0F B7 /r), MOVBQSX (W 0F BE /r), MOVWQSX (W 0F BF /r), MOVLQSX
    /// (W 63 /r).
    Extend {
        op: Extend,
        from: Rm,
        to: Reg,
    },
    /// `MOVL $constant, to` (B8 plus the register). The upper half becomes 0.
    LoadLong {
        constant: u32,
        to: Reg,
    },
    /// `MOVQ $constant, to`, for a constant that `LoadLong` hasn't: W C7 /0 with four bytes from -2^31 on, otherwise
    /// W B8 plus the register with eight.
    LoadQuad {
        constant: i64,
        to: Reg,
    },
    /// `MOVQ $constant, to` (C7 /0).
    StoreConst {
        width: Width,
        constant: i32,
        to: Mem,
    },
    /// `MOVB $constant, to` (C6 /0).
    StoreByte {
        constant: i8,
        to: Mem,
    },
    /// `LEAQ from, to` (W 8D /r): the address itself.
    Lea {
        from: Mem,
        to: Reg,
    },
    /// `INCQ rm` (FF /0), DEC (FF /1), NOT (F7 /2), NEG (F7 /3). Only memory is locked.
    Unary {
        op: Unary,
        lock: bool,
        width: Width,
        rm: Rm,
    },
    /// `MULQ rm` (F7 /4), DIV (F7 /6), IDIV (F7 /7).
    MulDiv {
        op: MulDiv,
        width: Width,
        rm: Rm,
    },
    /// `IMULQ from, to` (0F AF /r), BSF (0F BC /r), BSR (0F BD /r), POPCNT (F3 0F B8 /r).
    RmReg {
        op: RmReg,
        width: Width,
        from: Rm,
        to: Reg,
    },
    /// `SHLQ $count, rm` (C1 /4), SHR (/5), SAR (/7), ROL (/0). The count is below the width.
    ShiftConst {
        op: ShiftOp,
        width: Width,
        count: u8,
        rm: Rm,
    },
    /// `SHLQ CX, rm` (D3 with the same digits): the count is CX modulo the width.
    ShiftCx {
        op: ShiftOp,
        width: Width,
        rm: Rm,
    },
    /// `PUSHQ reg` (50 plus the register), `POPQ reg` (58 plus the register).
    Stack {
        op: Stack,
        reg: Reg,
    },
    /// `XCHGQ reg, mem` (87 /r). The processor locks it in any case.
    Exchange {
        width: Width,
        reg: Reg,
        mem: Mem,
    },
    /// `CMPXCHGQ reg, mem` (0F B1 /r), `XADDQ reg, mem` (0F C1 /r).
    Atomic {
        op: Atomic,
        lock: bool,
        width: Width,
        reg: Reg,
        mem: Mem,
    },
    /// `SETEQ to` (0F 90 plus the condition): one byte, 0 or 1.
    SetCc {
        code: Cc,
        to: Rm,
    },
    /// `CMOVQEQ from, to` (0F 40 plus the condition). The source is always read, and L always clears the upper half.
    MoveCc {
        code: Cc,
        width: Width,
        from: Rm,
        to: Reg,
    },
    /// `BSWAPQ reg` (0F C8 plus the register).
    SwapBytes {
        width: Width,
        reg: Reg,
    },
    /// `JMP goal` (EB), `JEQ goal` (70 plus the condition) with one byte: the goal lies this far above the
    /// instruction's end.
    Short {
        code: Option<Cc>,
        distance: i8,
    },
    /// `JMP goal` (E9), `CALL goal` (E8), `JEQ goal` (0F 80 plus the condition) with four bytes.
    Near {
        op: Near,
        distance: i32,
    },
    /// `JMP rm` (FF /4), `CALL rm` (FF /2), to the address that eight bytes have.
    Indirect {
        op: Indirect,
        rm: Rm,
    },
    /// `MOVOU from, to` (F3 0F 6F /r): 16 bytes.
    LoadWide {
        from: Mem,
        to: Xmm,
    },
    /// `MOVOU from, to` (F3 0F 7F /r).
    StoreWide {
        from: Xmm,
        to: Mem,
    },
    /// `PXOR from, to` (66 0F EF /r, `to` in the field reg).
    XorWide {
        from: Xmm,
        to: Xmm,
    },
    /// `MOVQ (TLS), to` (64 W 8B /r): the word at the base of thread-local storage less 8.
    LoadTls {
        to: Reg,
    },
    /// PAUSE (F3 90), MFENCE (0F AE F0), CDQ (99), CQO (W 99), RET (C3), SYSCALL (0F 05), CPUID (0F A2), RDTSC
    /// (0F 31), UNDEF (0F 0B).
    Plain {
        op: Plain,
    },
}

impl Default for Instr {
    /// PAUSE.
    fn default() -> Self
        ensures { result ≡ Instr.Plain Plain.Pause }
    {
        Instr::Plain { op: Plain::Pause }
    }
}
