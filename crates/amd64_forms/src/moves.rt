ghost use Rattle.std.specs.Prelude.{◌≡◌, Some, None, IfSome, IsTrue};
ghost use Rattle.amd64_table.specs.declared.instr.Instr.{Instr};
ghost use Rattle.amd64_table.specs.declared.mnemonic.Mnemonic.TheVariants as name;
ghost use Rattle.amd64_table.specs.Fits.{fits};
ghost use Rattle.amd64_forms.specs.Listed.{Shows};
ghost use Rattle.amd64_table.specs.declared.operand.Operand.TheVariants as operand;

use crate::operands::{byte_of, long_of, rm_of, unsigned_of};
use amd64_table::{Cc, Extend, Instr, Mem, MemReg, Operand, Reg, RegRm, StoreSize, Width};

/// MOVQ and MOVL.
#[tactic(auto, unfolding(amd64_table::specs::Mnemonics::mnemonic_of, amd64_table::specs::Texts::operands_of, amd64_table::specs::Texts::reg_rm_operands, amd64_table::specs::Texts::mem_reg_operands, amd64_table::specs::Texts::is_locked, amd64_table::specs::Fits::fits, crate::specs::Listed::is_short))]
pub fn mov(width: Width, first: Operand, second: Operand) -> Option<Instr>
    ensures found { IfSome result (λ i. Shows (name.Mov width) (Some first, Some second) i) }
    ensures only { (i : Instr) → IsTrue (fits i) → Shows (name.Mov width) (Some first, Some second) i → result ≡ Some i }
{
    match first {
        Operand::Reg(reg) => Some(Instr::RegRm {
            op: RegRm::Mov,
            width,
            reg,
            rm: rm_of(second)?,
        }),
        Operand::Mem(mem) => mov_load(width, mem, second),
        Operand::Const(constant) => mov_const(width, constant, second),
        Operand::Tls => mov_tls(width, second),
        Operand::Wide(_) | Operand::Goal(_) => None,
    }
}

/// MOVQ and MOVL from memory.
#[tactic(auto, unfolding(amd64_table::specs::Mnemonics::mnemonic_of, amd64_table::specs::Texts::operands_of, amd64_table::specs::Texts::reg_rm_operands, amd64_table::specs::Texts::mem_reg_operands, amd64_table::specs::Texts::is_locked, amd64_table::specs::Fits::fits, crate::specs::Listed::is_short))]
pub fn mov_load(width: Width, mem: Mem, second: Operand) -> Option<Instr>
    ensures found { IfSome result (λ i. Shows (name.Mov width) (Some (operand.Mem mem), Some second) i) }
    ensures only { (i : Instr) → IsTrue (fits i) → Shows (name.Mov width) (Some (operand.Mem mem), Some second) i → result ≡ Some i }
{
    match second {
        Operand::Reg(reg) => Some(Instr::MemReg {
            op: MemReg::Mov,
            width,
            mem,
            reg,
        }),
        _ => None,
    }
}

/// MOVQ and MOVL of a constant.
#[tactic(auto, unfolding(amd64_table::specs::Mnemonics::mnemonic_of, amd64_table::specs::Texts::operands_of, amd64_table::specs::Texts::reg_rm_operands, amd64_table::specs::Texts::mem_reg_operands, amd64_table::specs::Texts::is_locked, amd64_table::specs::Fits::fits, crate::specs::Listed::is_short))]
pub fn mov_const(width: Width, constant: i64, second: Operand) -> Option<Instr>
    ensures found { IfSome result (λ i. Shows (name.Mov width) (Some (operand.Const constant), Some second) i) }
    ensures only { (i : Instr) → IsTrue (fits i) → Shows (name.Mov width) (Some (operand.Const constant), Some second) i → result ≡ Some i }
{
    match second {
        Operand::Reg(to) => load_const(width, constant, to),
        Operand::Mem(to) => Some(Instr::StoreConst {
            width,
            constant: long_of(constant)?,
            to,
        }),
        _ => None,
    }
}

/// MOVQ and MOVL of a constant to a register. What MOVL can load MOVQ doesn't.
#[tactic(auto, unfolding(amd64_table::specs::Mnemonics::mnemonic_of, amd64_table::specs::Texts::operands_of, amd64_table::specs::Texts::reg_rm_operands, amd64_table::specs::Texts::mem_reg_operands, amd64_table::specs::Texts::is_locked, amd64_table::specs::Fits::fits, crate::specs::Listed::is_short))]
pub fn load_const(width: Width, constant: i64, to: Reg) -> Option<Instr>
    ensures found { IfSome result (λ i. Shows (name.Mov width) (Some (operand.Const constant), Some (operand.Reg to)) i) }
    ensures only { (i : Instr) → IsTrue (fits i) → Shows (name.Mov width) (Some (operand.Const constant), Some (operand.Reg to)) i → result ≡ Some i }
{
    match width {
        Width::L => Some(Instr::LoadLong {
            constant: unsigned_of(constant)?,
            to,
        }),
        Width::Q => Some(Instr::LoadQuad { constant, to }),
    }
}

/// MOVQ of the word that `(TLS)` names.
#[tactic(auto, unfolding(amd64_table::specs::Mnemonics::mnemonic_of, amd64_table::specs::Texts::operands_of, amd64_table::specs::Texts::reg_rm_operands, amd64_table::specs::Texts::mem_reg_operands, amd64_table::specs::Texts::is_locked, amd64_table::specs::Fits::fits, crate::specs::Listed::is_short))]
pub fn mov_tls(width: Width, second: Operand) -> Option<Instr>
    ensures found { IfSome result (λ i. Shows (name.Mov width) (Some operand.Tls, Some second) i) }
    ensures only { (i : Instr) → IsTrue (fits i) → Shows (name.Mov width) (Some operand.Tls, Some second) i → result ≡ Some i }
{
    match (width, second) {
        (Width::Q, Operand::Reg(to)) => Some(Instr::LoadTls { to }),
        _ => None,
    }
}

/// MOVB and MOVW.
#[tactic(auto, unfolding(amd64_table::specs::Mnemonics::mnemonic_of, amd64_table::specs::Texts::operands_of, amd64_table::specs::Texts::reg_rm_operands, amd64_table::specs::Texts::mem_reg_operands, amd64_table::specs::Texts::is_locked, amd64_table::specs::Fits::fits, crate::specs::Listed::is_short))]
pub fn store_low(size: StoreSize, first: Operand, second: Operand) -> Option<Instr>
    ensures found { IfSome result (λ i. Shows (name.StoreLow size) (Some first, Some second) i) }
    ensures only { (i : Instr) → IsTrue (fits i) → Shows (name.StoreLow size) (Some first, Some second) i → result ≡ Some i }
{
    match second {
        Operand::Mem(to) => store_low_at(size, first, to),
        _ => None,
    }
}

/// MOVB and MOVW to a place in memory.
#[tactic(auto, unfolding(amd64_table::specs::Mnemonics::mnemonic_of, amd64_table::specs::Texts::operands_of, amd64_table::specs::Texts::reg_rm_operands, amd64_table::specs::Texts::mem_reg_operands, amd64_table::specs::Texts::is_locked, amd64_table::specs::Fits::fits, crate::specs::Listed::is_short))]
pub fn store_low_at(size: StoreSize, first: Operand, to: Mem) -> Option<Instr>
    ensures found { IfSome result (λ i. Shows (name.StoreLow size) (Some first, Some (operand.Mem to)) i) }
    ensures only { (i : Instr) → IsTrue (fits i) → Shows (name.StoreLow size) (Some first, Some (operand.Mem to)) i → result ≡ Some i }
{
    match (size, first) {
        (size, Operand::Reg(from)) => Some(Instr::StoreLow { size, from, to }),
        (StoreSize::Byte, Operand::Const(constant)) => Some(Instr::StoreByte {
            constant: byte_of(constant)?,
            to,
        }),
        _ => None,
    }
}

/// MOVBLZX and its kin.
#[tactic(auto, unfolding(amd64_table::specs::Mnemonics::mnemonic_of, amd64_table::specs::Texts::operands_of, amd64_table::specs::Texts::reg_rm_operands, amd64_table::specs::Texts::mem_reg_operands, amd64_table::specs::Texts::is_locked, amd64_table::specs::Fits::fits, crate::specs::Listed::is_short))]
pub fn extend(op: Extend, first: Operand, second: Operand) -> Option<Instr>
    ensures found { IfSome result (λ i. Shows (name.Extend op) (Some first, Some second) i) }
    ensures only { (i : Instr) → IsTrue (fits i) → Shows (name.Extend op) (Some first, Some second) i → result ≡ Some i }
{
    match second {
        Operand::Reg(to) => Some(Instr::Extend {
            op,
            from: rm_of(first)?,
            to,
        }),
        _ => None,
    }
}

/// LEAQ.
#[tactic(auto, unfolding(amd64_table::specs::Mnemonics::mnemonic_of, amd64_table::specs::Texts::operands_of, amd64_table::specs::Texts::reg_rm_operands, amd64_table::specs::Texts::mem_reg_operands, amd64_table::specs::Texts::is_locked, amd64_table::specs::Fits::fits, crate::specs::Listed::is_short))]
pub fn lea(first: Operand, second: Operand) -> Option<Instr>
    ensures found { IfSome result (λ i. Shows (name.Lea) (Some first, Some second) i) }
    ensures only { (i : Instr) → IsTrue (fits i) → Shows (name.Lea) (Some first, Some second) i → result ≡ Some i }
{
    match (first, second) {
        (Operand::Mem(from), Operand::Reg(to)) => Some(Instr::Lea { from, to }),
        _ => None,
    }
}

/// CMOVQEQ and its kin.
#[tactic(auto, unfolding(amd64_table::specs::Mnemonics::mnemonic_of, amd64_table::specs::Texts::operands_of, amd64_table::specs::Texts::reg_rm_operands, amd64_table::specs::Texts::mem_reg_operands, amd64_table::specs::Texts::is_locked, amd64_table::specs::Fits::fits, crate::specs::Listed::is_short))]
pub fn move_cc(width: Width, code: Cc, first: Operand, second: Operand) -> Option<Instr>
    ensures found { IfSome result (λ i. Shows (name.MoveCc width code) (Some first, Some second) i) }
    ensures only { (i : Instr) → IsTrue (fits i) → Shows (name.MoveCc width code) (Some first, Some second) i → result ≡ Some i }
{
    match second {
        Operand::Reg(to) => Some(Instr::MoveCc {
            code,
            width,
            from: rm_of(first)?,
            to,
        }),
        _ => None,
    }
}

/// MOVOU.
#[tactic(auto, unfolding(amd64_table::specs::Mnemonics::mnemonic_of, amd64_table::specs::Texts::operands_of, amd64_table::specs::Texts::reg_rm_operands, amd64_table::specs::Texts::mem_reg_operands, amd64_table::specs::Texts::is_locked, amd64_table::specs::Fits::fits, crate::specs::Listed::is_short))]
pub fn move_wide(first: Operand, second: Operand) -> Option<Instr>
    ensures found { IfSome result (λ i. Shows (name.MoveWide) (Some first, Some second) i) }
    ensures only { (i : Instr) → IsTrue (fits i) → Shows (name.MoveWide) (Some first, Some second) i → result ≡ Some i }
{
    match (first, second) {
        (Operand::Mem(from), Operand::Wide(to)) => Some(Instr::LoadWide { from, to }),
        (Operand::Wide(from), Operand::Mem(to)) => Some(Instr::StoreWide { from, to }),
        _ => None,
    }
}
