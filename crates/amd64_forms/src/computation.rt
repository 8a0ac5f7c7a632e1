ghost use Rattle.std.specs.Prelude.{◌≡◌, Some, None, IfSome, IsTrue};
ghost use Rattle.amd64_table.specs.declared.instr.Instr.{Instr};
ghost use Rattle.amd64_table.specs.declared.mnemonic.Mnemonic.TheVariants as name;
ghost use Rattle.amd64_table.specs.Fits.{fits};
ghost use Rattle.amd64_table.specs.Texts.{is_locked};
ghost use Rattle.amd64_forms.specs.Listed.{Shows};
ghost use Rattle.amd64_table.specs.declared.operand.Operand.TheVariants as operand;

use crate::operands::{count_of, long_of, rm_of};
use amd64_table::{
    Arithmetic, Atomic, Cc, Instr, Mem, MemReg, MulDiv, Operand, Reg, RegRm, RmReg, ShiftOp, Unary,
    Width,
};

/// ADDQ and its kin.
#[tactic(auto, unfolding(amd64_table::specs::Mnemonics::mnemonic_of, amd64_table::specs::Texts::operands_of, amd64_table::specs::Texts::reg_rm_operands, amd64_table::specs::Texts::mem_reg_operands, amd64_table::specs::Texts::is_locked, amd64_table::specs::Fits::fits, crate::specs::Listed::is_short))]
pub fn arithmetic(
    op: Arithmetic,
    width: Width,
    lock: bool,
    first: Operand,
    second: Operand,
) -> Option<Instr>
    ensures found { IfSome result (λ i. Shows (name.Arithmetic op width) (Some first, Some second) i) }
    ensures only { (i : Instr) → IsTrue (fits i) → Shows (name.Arithmetic op width) (Some first, Some second) i → is_locked i ≡ lock → result ≡ Some i }
{
    match first {
        Operand::Reg(from) => Some(Instr::ArithmeticReg {
            op,
            lock,
            width,
            from,
            to: rm_of(second)?,
        }),
        Operand::Mem(mem) => arithmetic_load(op, width, mem, second),
        Operand::Const(constant) => Some(Instr::ArithmeticConst {
            op,
            lock,
            width,
            constant: long_of(constant)?,
            to: rm_of(second)?,
        }),
        _ => None,
    }
}

/// ADDQ and its kin from memory.
#[tactic(auto, unfolding(amd64_table::specs::Mnemonics::mnemonic_of, amd64_table::specs::Texts::operands_of, amd64_table::specs::Texts::reg_rm_operands, amd64_table::specs::Texts::mem_reg_operands, amd64_table::specs::Texts::is_locked, amd64_table::specs::Fits::fits, crate::specs::Listed::is_short))]
pub fn arithmetic_load(op: Arithmetic, width: Width, mem: Mem, second: Operand) -> Option<Instr>
    ensures found { IfSome result (λ i. Shows (name.Arithmetic op width) (Some (operand.Mem mem), Some second) i) }
    ensures only { (i : Instr) → IsTrue (fits i) → Shows (name.Arithmetic op width) (Some (operand.Mem mem), Some second) i → result ≡ Some i }
{
    match second {
        Operand::Reg(reg) => Some(Instr::MemReg {
            op: MemReg::Arithmetic(op),
            width,
            mem,
            reg,
        }),
        _ => None,
    }
}

/// CMPQ and CMPL.
#[tactic(auto, unfolding(amd64_table::specs::Mnemonics::mnemonic_of, amd64_table::specs::Texts::operands_of, amd64_table::specs::Texts::reg_rm_operands, amd64_table::specs::Texts::mem_reg_operands, amd64_table::specs::Texts::is_locked, amd64_table::specs::Fits::fits, crate::specs::Listed::is_short))]
pub fn cmp(width: Width, first: Operand, second: Operand) -> Option<Instr>
    ensures found { IfSome result (λ i. Shows (name.Cmp width) (Some first, Some second) i) }
    ensures only { (i : Instr) → IsTrue (fits i) → Shows (name.Cmp width) (Some first, Some second) i → result ≡ Some i }
{
    match second {
        Operand::Reg(reg) => Some(Instr::RegRm {
            op: RegRm::Cmp,
            width,
            reg,
            rm: rm_of(first)?,
        }),
        Operand::Mem(mem) => cmp_mem(width, first, mem),
        Operand::Const(constant) => Some(Instr::CompareConst {
            width,
            rm: rm_of(first)?,
            constant: long_of(constant)?,
        }),
        _ => None,
    }
}

/// CMPQ and CMPL of a register with memory.
#[tactic(auto, unfolding(amd64_table::specs::Mnemonics::mnemonic_of, amd64_table::specs::Texts::operands_of, amd64_table::specs::Texts::reg_rm_operands, amd64_table::specs::Texts::mem_reg_operands, amd64_table::specs::Texts::is_locked, amd64_table::specs::Fits::fits, crate::specs::Listed::is_short))]
pub fn cmp_mem(width: Width, first: Operand, mem: Mem) -> Option<Instr>
    ensures found { IfSome result (λ i. Shows (name.Cmp width) (Some first, Some (operand.Mem mem)) i) }
    ensures only { (i : Instr) → IsTrue (fits i) → Shows (name.Cmp width) (Some first, Some (operand.Mem mem)) i → result ≡ Some i }
{
    match first {
        Operand::Reg(reg) => Some(Instr::MemReg {
            op: MemReg::Cmp,
            width,
            mem,
            reg,
        }),
        _ => None,
    }
}

/// TESTQ and TESTL.
#[tactic(auto, unfolding(amd64_table::specs::Mnemonics::mnemonic_of, amd64_table::specs::Texts::operands_of, amd64_table::specs::Texts::reg_rm_operands, amd64_table::specs::Texts::mem_reg_operands, amd64_table::specs::Texts::is_locked, amd64_table::specs::Fits::fits, crate::specs::Listed::is_short))]
pub fn test(width: Width, first: Operand, second: Operand) -> Option<Instr>
    ensures found { IfSome result (λ i. Shows (name.Test width) (Some first, Some second) i) }
    ensures only { (i : Instr) → IsTrue (fits i) → Shows (name.Test width) (Some first, Some second) i → result ≡ Some i }
{
    match first {
        Operand::Reg(reg) => Some(Instr::RegRm {
            op: RegRm::Test,
            width,
            reg,
            rm: rm_of(second)?,
        }),
        _ => None,
    }
}

/// INCQ and its kin.
#[tactic(auto, unfolding(amd64_table::specs::Mnemonics::mnemonic_of, amd64_table::specs::Texts::operands_of, amd64_table::specs::Texts::reg_rm_operands, amd64_table::specs::Texts::mem_reg_operands, amd64_table::specs::Texts::is_locked, amd64_table::specs::Fits::fits, crate::specs::Listed::is_short))]
pub fn unary(op: Unary, width: Width, lock: bool, operand: Operand) -> Option<Instr>
    ensures found { IfSome result (λ i. Shows (name.Unary op width) (Some operand, None) i) }
    ensures only { (i : Instr) → IsTrue (fits i) → Shows (name.Unary op width) (Some operand, None) i → is_locked i ≡ lock → result ≡ Some i }
{
    Some(Instr::Unary {
        op,
        lock,
        width,
        rm: rm_of(operand)?,
    })
}

/// MULQ and its kin.
#[tactic(auto, unfolding(amd64_table::specs::Mnemonics::mnemonic_of, amd64_table::specs::Texts::operands_of, amd64_table::specs::Texts::reg_rm_operands, amd64_table::specs::Texts::mem_reg_operands, amd64_table::specs::Texts::is_locked, amd64_table::specs::Fits::fits, crate::specs::Listed::is_short))]
pub fn mul_div(op: MulDiv, width: Width, operand: Operand) -> Option<Instr>
    ensures found { IfSome result (λ i. Shows (name.MulDiv op width) (Some operand, None) i) }
    ensures only { (i : Instr) → IsTrue (fits i) → Shows (name.MulDiv op width) (Some operand, None) i → result ≡ Some i }
{
    Some(Instr::MulDiv {
        op,
        width,
        rm: rm_of(operand)?,
    })
}

/// IMULQ and its kin.
#[tactic(auto, unfolding(amd64_table::specs::Mnemonics::mnemonic_of, amd64_table::specs::Texts::operands_of, amd64_table::specs::Texts::reg_rm_operands, amd64_table::specs::Texts::mem_reg_operands, amd64_table::specs::Texts::is_locked, amd64_table::specs::Fits::fits, crate::specs::Listed::is_short))]
pub fn rm_reg(op: RmReg, width: Width, first: Operand, second: Operand) -> Option<Instr>
    ensures found { IfSome result (λ i. Shows (name.RmReg op width) (Some first, Some second) i) }
    ensures only { (i : Instr) → IsTrue (fits i) → Shows (name.RmReg op width) (Some first, Some second) i → result ≡ Some i }
{
    match second {
        Operand::Reg(to) => Some(Instr::RmReg {
            op,
            width,
            from: rm_of(first)?,
            to,
        }),
        _ => None,
    }
}

/// SHLQ and its kin.
#[tactic(auto, unfolding(amd64_table::specs::Mnemonics::mnemonic_of, amd64_table::specs::Texts::operands_of, amd64_table::specs::Texts::reg_rm_operands, amd64_table::specs::Texts::mem_reg_operands, amd64_table::specs::Texts::is_locked, amd64_table::specs::Fits::fits, crate::specs::Listed::is_short))]
pub fn shift(op: ShiftOp, width: Width, first: Operand, second: Operand) -> Option<Instr>
    ensures found { IfSome result (λ i. Shows (name.Shift op width) (Some first, Some second) i) }
    ensures only { (i : Instr) → IsTrue (fits i) → Shows (name.Shift op width) (Some first, Some second) i → result ≡ Some i }
{
    match first {
        Operand::Const(count) => Some(Instr::ShiftConst {
            op,
            width,
            count: count_of(width, count)?,
            rm: rm_of(second)?,
        }),
        Operand::Reg(Reg::Cx) => Some(Instr::ShiftCx {
            op,
            width,
            rm: rm_of(second)?,
        }),
        _ => None,
    }
}

/// XCHGQ and XCHGL.
#[tactic(auto, unfolding(amd64_table::specs::Mnemonics::mnemonic_of, amd64_table::specs::Texts::operands_of, amd64_table::specs::Texts::reg_rm_operands, amd64_table::specs::Texts::mem_reg_operands, amd64_table::specs::Texts::is_locked, amd64_table::specs::Fits::fits, crate::specs::Listed::is_short))]
pub fn exchange(width: Width, first: Operand, second: Operand) -> Option<Instr>
    ensures found { IfSome result (λ i. Shows (name.Exchange width) (Some first, Some second) i) }
    ensures only { (i : Instr) → IsTrue (fits i) → Shows (name.Exchange width) (Some first, Some second) i → result ≡ Some i }
{
    match (first, second) {
        (Operand::Reg(reg), Operand::Mem(mem)) => Some(Instr::Exchange { width, reg, mem }),
        _ => None,
    }
}

/// CMPXCHGQ and its kin.
#[tactic(auto, unfolding(amd64_table::specs::Mnemonics::mnemonic_of, amd64_table::specs::Texts::operands_of, amd64_table::specs::Texts::reg_rm_operands, amd64_table::specs::Texts::mem_reg_operands, amd64_table::specs::Texts::is_locked, amd64_table::specs::Fits::fits, crate::specs::Listed::is_short))]
pub fn atomic(
    op: Atomic,
    width: Width,
    lock: bool,
    first: Operand,
    second: Operand,
) -> Option<Instr>
    ensures found { IfSome result (λ i. Shows (name.Atomic op width) (Some first, Some second) i) }
    ensures only { (i : Instr) → IsTrue (fits i) → Shows (name.Atomic op width) (Some first, Some second) i → is_locked i ≡ lock → result ≡ Some i }
{
    match (first, second) {
        (Operand::Reg(reg), Operand::Mem(mem)) => Some(Instr::Atomic {
            op,
            lock,
            width,
            reg,
            mem,
        }),
        _ => None,
    }
}

/// SETEQ and its kin.
#[tactic(auto, unfolding(amd64_table::specs::Mnemonics::mnemonic_of, amd64_table::specs::Texts::operands_of, amd64_table::specs::Texts::reg_rm_operands, amd64_table::specs::Texts::mem_reg_operands, amd64_table::specs::Texts::is_locked, amd64_table::specs::Fits::fits, crate::specs::Listed::is_short))]
pub fn set_cc(code: Cc, operand: Operand) -> Option<Instr>
    ensures found { IfSome result (λ i. Shows (name.SetCc code) (Some operand, None) i) }
    ensures only { (i : Instr) → IsTrue (fits i) → Shows (name.SetCc code) (Some operand, None) i → result ≡ Some i }
{
    Some(Instr::SetCc {
        code,
        to: rm_of(operand)?,
    })
}

/// BSWAPQ and BSWAPL.
#[tactic(auto, unfolding(amd64_table::specs::Mnemonics::mnemonic_of, amd64_table::specs::Texts::operands_of, amd64_table::specs::Texts::reg_rm_operands, amd64_table::specs::Texts::mem_reg_operands, amd64_table::specs::Texts::is_locked, amd64_table::specs::Fits::fits, crate::specs::Listed::is_short))]
pub fn swap_bytes(width: Width, operand: Operand) -> Option<Instr>
    ensures found { IfSome result (λ i. Shows (name.SwapBytes width) (Some operand, None) i) }
    ensures only { (i : Instr) → IsTrue (fits i) → Shows (name.SwapBytes width) (Some operand, None) i → result ≡ Some i }
{
    match operand {
        Operand::Reg(reg) => Some(Instr::SwapBytes { width, reg }),
        _ => None,
    }
}

/// PXOR.
#[tactic(auto, unfolding(amd64_table::specs::Mnemonics::mnemonic_of, amd64_table::specs::Texts::operands_of, amd64_table::specs::Texts::reg_rm_operands, amd64_table::specs::Texts::mem_reg_operands, amd64_table::specs::Texts::is_locked, amd64_table::specs::Fits::fits, crate::specs::Listed::is_short))]
pub fn xor_wide(first: Operand, second: Operand) -> Option<Instr>
    ensures found { IfSome result (λ i. Shows (name.XorWide) (Some first, Some second) i) }
    ensures only { (i : Instr) → IsTrue (fits i) → Shows (name.XorWide) (Some first, Some second) i → result ≡ Some i }
{
    match (first, second) {
        (Operand::Wide(from), Operand::Wide(to)) => Some(Instr::XorWide { from, to }),
        _ => None,
    }
}
