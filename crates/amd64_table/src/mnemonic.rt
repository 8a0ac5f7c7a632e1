ghost use Rattle.std.specs.Prelude.{◌≡◌, ◌++◌, OnOk};
ghost use Rattle.amd64_table.specs.Mnemonics as spec;

use crate::condition::Cc;
use crate::instr::Instr;
use crate::op::{
    Arithmetic, Atomic, Extend, Indirect, MemReg, MulDiv, Near, Plain, RegRm, RmReg, ShiftOp,
    Stack, StoreSize, Unary,
};
use crate::width::Width;
use goasm_base::{Memory, Text};

/// The name of an instruction in Go's assembler, with the width and the condition that it tells.
#[derive(Clone, Copy, Debug, PartialEq, Eq)]
pub enum Mnemonic {
    /// MOVQ, MOVL: of registers, memory, constants and `(TLS)`.
    Mov(Width),
    /// MOVB, MOVW.
    StoreLow(StoreSize),
    /// MOVBLZX and its kin.
    Extend(Extend),
    /// LEAQ.
    Lea,
    /// ADDQ and its kin.
    Arithmetic(Arithmetic, Width),
    /// CMPQ, CMPL.
    Cmp(Width),
    /// TESTQ, TESTL.
    Test(Width),
    /// INCQ and its kin.
    Unary(Unary, Width),
    /// MULQ and its kin.
    MulDiv(MulDiv, Width),
    /// IMULQ and its kin.
    RmReg(RmReg, Width),
    /// SHLQ and its kin.
    Shift(ShiftOp, Width),
    /// PUSHQ, POPQ.
    Stack(Stack),
    /// XCHGQ, XCHGL.
    Exchange(Width),
    /// CMPXCHGQ and its kin.
    Atomic(Atomic, Width),
    /// SETEQ and its kin.
    SetCc(Cc),
    /// CMOVQEQ and its kin.
    MoveCc(Width, Cc),
    /// BSWAPQ, BSWAPL.
    SwapBytes(Width),
    /// JMP.
    Jump,
    /// JEQ and its kin.
    JumpIf(Cc),
    /// CALL.
    Call,
    /// MOVOU.
    MoveWide,
    /// PXOR.
    XorWide,
    /// PAUSE and its kin, without operands.
    Plain(Plain),
}

/// The name of an instruction. A branch has one name with a short and a long distance.
#[tactic(auto, unfolding(crate::specs::Mnemonics::mnemonic_of))]
pub fn mnemonic_of(instr: &Instr) -> Mnemonic
    ensures { result ≡ spec.mnemonic_of instr.now }
{
    match *instr {
        Instr::RegRm { op, width, .. } => reg_rm_mnemonic(op, width),
        Instr::MemReg { op, width, .. } => mem_reg_mnemonic(op, width),
        Instr::StoreConst { width, .. } => Mnemonic::Mov(width),
        Instr::LoadLong { .. } => Mnemonic::Mov(Width::L),
        Instr::LoadQuad { .. } | Instr::LoadTls { .. } => Mnemonic::Mov(Width::Q),
        Instr::StoreLow { size, .. } => Mnemonic::StoreLow(size),
        Instr::StoreByte { .. } => Mnemonic::StoreLow(StoreSize::Byte),
        Instr::Extend { op, .. } => Mnemonic::Extend(op),
        Instr::Lea { .. } => Mnemonic::Lea,
        Instr::ArithmeticReg { op, width, .. } | Instr::ArithmeticConst { op, width, .. } => {
            Mnemonic::Arithmetic(op, width)
        }
        Instr::CompareConst { width, .. } => Mnemonic::Cmp(width),
        Instr::Unary { op, width, .. } => Mnemonic::Unary(op, width),
        Instr::MulDiv { op, width, .. } => Mnemonic::MulDiv(op, width),
        Instr::RmReg { op, width, .. } => Mnemonic::RmReg(op, width),
        Instr::ShiftConst { op, width, .. } | Instr::ShiftCx { op, width, .. } => {
            Mnemonic::Shift(op, width)
        }
        Instr::Stack { op, .. } => Mnemonic::Stack(op),
        Instr::Exchange { width, .. } => Mnemonic::Exchange(width),
        Instr::Atomic { op, width, .. } => Mnemonic::Atomic(op, width),
        Instr::SetCc { code, .. } => Mnemonic::SetCc(code),
        Instr::MoveCc { code, width, .. } => Mnemonic::MoveCc(width, code),
        Instr::SwapBytes { width, .. } => Mnemonic::SwapBytes(width),
        Instr::Short { code: None, .. } => Mnemonic::Jump,
        Instr::Short {
            code: Some(code),
            ..
        } => Mnemonic::JumpIf(code),
        Instr::Near { op, .. } => near_mnemonic(op),
        Instr::Indirect {
            op: Indirect::Jmp,
            ..
        } => Mnemonic::Jump,
        Instr::Indirect {
            op: Indirect::Call,
            ..
        } => Mnemonic::Call,
        Instr::LoadWide { .. } | Instr::StoreWide { .. } => Mnemonic::MoveWide,
        Instr::XorWide { .. } => Mnemonic::XorWide,
        Instr::Plain { op } => Mnemonic::Plain(op),
    }
}

fn reg_rm_mnemonic(op: RegRm, width: Width) -> Mnemonic
    ensures { result ≡ spec.reg_rm_mnemonic op width }
{
    match op {
        RegRm::Mov => Mnemonic::Mov(width),
        RegRm::Cmp => Mnemonic::Cmp(width),
        RegRm::Test => Mnemonic::Test(width),
    }
}

fn mem_reg_mnemonic(op: MemReg, width: Width) -> Mnemonic
    ensures { result ≡ spec.mem_reg_mnemonic op width }
{
    match op {
        MemReg::Mov => Mnemonic::Mov(width),
        MemReg::Cmp => Mnemonic::Cmp(width),
        MemReg::Arithmetic(op) => Mnemonic::Arithmetic(op, width),
    }
}

fn near_mnemonic(op: Near) -> Mnemonic
    ensures { result ≡ spec.near_mnemonic op }
{
    match op {
        Near::Jmp => Mnemonic::Jump,
        Near::Call => Mnemonic::Call,
        Near::If(code) => Mnemonic::JumpIf(code),
    }
}

impl Mnemonic {
    /// The width that the name tells by its letter Q or L.
    #[tactic(auto, unfolding(crate::specs::Mnemonics::width_of))]
    pub fn width(self) -> Option<Width>
        ensures { result ≡ spec.width_of self }
    {
        match self {
            Mnemonic::Mov(width)
            | Mnemonic::Arithmetic(_, width)
            | Mnemonic::Cmp(width)
            | Mnemonic::Test(width)
            | Mnemonic::Unary(_, width)
            | Mnemonic::MulDiv(_, width)
            | Mnemonic::RmReg(_, width)
            | Mnemonic::Shift(_, width)
            | Mnemonic::Exchange(width)
            | Mnemonic::Atomic(_, width)
            | Mnemonic::MoveCc(width, _)
            | Mnemonic::SwapBytes(width) => Some(width),
            _ => None,
        }
    }

    /// The condition that the name tells.
    #[tactic(auto, unfolding(crate::specs::Mnemonics::cc_of))]
    pub fn cc(self) -> Option<Cc>
        ensures { result ≡ spec.cc_of self }
    {
        match self {
            Mnemonic::SetCc(code) | Mnemonic::MoveCc(_, code) | Mnemonic::JumpIf(code) => {
                Some(code)
            }
            _ => None,
        }
    }

    // The name but for the letter of a width and a condition.
    #[tactic(auto, unfolding(crate::specs::Mnemonics::stem_of))]
    fn stem(self) -> &'static [u8]
        ensures { result.now ≡ spec.stem_of self }
    {
        match self {
            Mnemonic::Mov(_) => b"MOV",
            Mnemonic::StoreLow(StoreSize::Byte) => b"MOVB",
            Mnemonic::StoreLow(StoreSize::Word) => b"MOVW",
            Mnemonic::Extend(op) => op.stem(),
            Mnemonic::Lea => b"LEAQ",
            Mnemonic::Arithmetic(op, _) => op.stem(),
            Mnemonic::Cmp(_) => b"CMP",
            Mnemonic::Test(_) => b"TEST",
            Mnemonic::Unary(op, _) => op.stem(),
            Mnemonic::MulDiv(op, _) => op.stem(),
            Mnemonic::RmReg(op, _) => op.stem(),
            Mnemonic::Shift(op, _) => op.stem(),
            Mnemonic::Stack(Stack::Push) => b"PUSHQ",
            Mnemonic::Stack(Stack::Pop) => b"POPQ",
            Mnemonic::Exchange(_) => b"XCHG",
            Mnemonic::Atomic(Atomic::CompareExchange, _) => b"CMPXCHG",
            Mnemonic::Atomic(Atomic::ExchangeAdd, _) => b"XADD",
            Mnemonic::SetCc(_) => b"SET",
            Mnemonic::MoveCc(..) => b"CMOV",
            Mnemonic::SwapBytes(_) => b"BSWAP",
            Mnemonic::Jump => b"JMP",
            Mnemonic::JumpIf(_) => b"J",
            Mnemonic::Call => b"CALL",
            Mnemonic::MoveWide => b"MOVOU",
            Mnemonic::XorWide => b"PXOR",
            Mnemonic::Plain(op) => op.stem(),
        }
    }

    /// Appends the name.
    #[tactic(auto, unfolding(crate::specs::Mnemonics::mnemonic_text))]
    pub fn push_to(self, text: &mut Text) -> Result<(), Memory>
        ensures { OnOk result (text.new ≡ text.old ++ spec.mnemonic_text self) }
    {
        text.push(self.stem())?;
        text.push(width_letter(self.width()))?;
        text.push(condition_name(self.cc()))
    }
}

#[tactic(auto, unfolding(crate::specs::Mnemonics::width_text))]
fn width_letter(width: Option<Width>) -> &'static [u8]
    ensures { result.now ≡ spec.width_text width }
{
    match width {
        None => b"",
        Some(Width::Q) => b"Q",
        Some(Width::L) => b"L",
    }
}

#[tactic(auto, unfolding(crate::specs::Mnemonics::condition_text))]
fn condition_name(code: Option<Cc>) -> &'static [u8]
    ensures { result.now ≡ spec.condition_text code }
{
    match code {
        None => b"",
        Some(code) => code.name(),
    }
}
