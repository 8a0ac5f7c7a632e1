ghost use Rattle.std.specs.Prelude.{◌≡◌};
ghost use Rattle.amd64_table.specs.Texts as spec;

use crate::instr::Instr;
use crate::memory::{Mem, Rm};
use crate::op::{MemReg, RegRm};
use crate::reg::Reg;
use crate::xmm::Xmm;

/// An operand as it is written.
#[derive(Clone, Copy, Debug, PartialEq, Eq)]
pub enum Operand {
    /// A general register.
    Reg(Reg),
    /// An X register.
    Wide(Xmm),
    /// A place in memory.
    Mem(Mem),
    /// A constant, behind a `$`.
    Const(i64),
    /// The address that lies this far above the instruction's end.
    Goal(i64),
    /// `(TLS)`.
    Tls,
}

fn rm_operand(rm: Rm) -> Operand
    ensures { result ≡ spec.rm_operand rm }
{
    match rm {
        Rm::Reg(reg) => Operand::Reg(reg),
        Rm::Mem(mem) => Operand::Mem(mem),
    }
}

fn one(operand: Operand) -> (Option<Operand>, Option<Operand>)
    ensures { result ≡ spec.one operand }
{
    (Some(operand), None)
}

fn two(first: Operand, second: Operand) -> (Option<Operand>, Option<Operand>)
    ensures { result ≡ spec.two first second }
{
    (Some(first), Some(second))
}

#[tactic(auto, unfolding(crate::specs::Texts::reg_rm_operands))]
fn reg_rm_operands(op: RegRm, reg: Reg, rm: Rm) -> (Option<Operand>, Option<Operand>)
    ensures { result ≡ spec.reg_rm_operands op reg rm }
{
    let reg = Operand::Reg(reg);
    match op {
        RegRm::Mov | RegRm::Test => two(reg, rm_operand(rm)),
        RegRm::Cmp => two(rm_operand(rm), reg),
    }
}

#[tactic(auto, unfolding(crate::specs::Texts::mem_reg_operands))]
fn mem_reg_operands(op: MemReg, mem: Mem, reg: Reg) -> (Option<Operand>, Option<Operand>)
    ensures { result ≡ spec.mem_reg_operands op mem reg }
{
    let mem = Operand::Mem(mem);
    let reg = Operand::Reg(reg);
    match op {
        MemReg::Mov | MemReg::Arithmetic(_) => two(mem, reg),
        MemReg::Cmp => two(reg, mem),
    }
}

/// The operands in the order in which they are written.
#[tactic(auto, unfolding(crate::specs::Texts::operands_of))]
pub fn operands_of(instr: &Instr) -> (Option<Operand>, Option<Operand>)
    ensures { result ≡ spec.operands_of instr.now }
{
    match *instr {
        Instr::RegRm { op, reg, rm, .. } => reg_rm_operands(op, reg, rm),
        Instr::ArithmeticReg { from, to, .. } => two(Operand::Reg(from), rm_operand(to)),
        Instr::MemReg { op, mem, reg, .. } => mem_reg_operands(op, mem, reg),
        Instr::ArithmeticConst { constant, to, .. } => {
            two(Operand::Const(i64::from(constant)), rm_operand(to))
        }
        Instr::CompareConst { rm, constant, .. } => {
            two(rm_operand(rm), Operand::Const(i64::from(constant)))
        }
        Instr::StoreLow { from, to, .. } => two(Operand::Reg(from), Operand::Mem(to)),
        Instr::Extend { from, to, .. } => two(rm_operand(from), Operand::Reg(to)),
        Instr::LoadLong { constant, to } => {
            two(Operand::Const(i64::from(constant)), Operand::Reg(to))
        }
        Instr::LoadQuad { constant, to } => two(Operand::Const(constant), Operand::Reg(to)),
        Instr::StoreConst { constant, to, .. } => {
            two(Operand::Const(i64::from(constant)), Operand::Mem(to))
        }
        Instr::StoreByte { constant, to } => {
            two(Operand::Const(i64::from(constant)), Operand::Mem(to))
        }
        Instr::Lea { from, to } => two(Operand::Mem(from), Operand::Reg(to)),
        Instr::Unary { rm, .. } | Instr::MulDiv { rm, .. } | Instr::Indirect { rm, .. } => {
            one(rm_operand(rm))
        }
        Instr::RmReg { from, to, .. } | Instr::MoveCc { from, to, .. } => {
            two(rm_operand(from), Operand::Reg(to))
        }
        Instr::ShiftConst { count, rm, .. } => {
            two(Operand::Const(i64::from(count)), rm_operand(rm))
        }
        Instr::ShiftCx { rm, .. } => two(Operand::Reg(Reg::Cx), rm_operand(rm)),
        Instr::Stack { reg, .. } | Instr::SwapBytes { reg, .. } => one(Operand::Reg(reg)),
        Instr::Exchange { reg, mem, .. } | Instr::Atomic { reg, mem, .. } => {
            two(Operand::Reg(reg), Operand::Mem(mem))
        }
        Instr::SetCc { to, .. } => one(rm_operand(to)),
        Instr::Short { distance, .. } => one(Operand::Goal(i64::from(distance))),
        Instr::Near { distance, .. } => one(Operand::Goal(i64::from(distance))),
        Instr::LoadWide { from, to } => two(Operand::Mem(from), Operand::Wide(to)),
        Instr::StoreWide { from, to } => two(Operand::Wide(from), Operand::Mem(to)),
        Instr::XorWide { from, to } => two(Operand::Wide(from), Operand::Wide(to)),
        Instr::LoadTls { to } => two(Operand::Tls, Operand::Reg(to)),
        Instr::Plain { .. } => (None, None),
    }
}

/// Whether LOCK stands before the instruction.
#[tactic(auto, unfolding(crate::specs::Texts::is_locked))]
pub fn is_locked(instr: &Instr) -> bool
    ensures { result ≡ spec.is_locked instr.now }
{
    match *instr {
        Instr::ArithmeticReg { lock, .. }
        | Instr::ArithmeticConst { lock, .. }
        | Instr::Unary { lock, .. }
        | Instr::Atomic { lock, .. } => lock,
        _ => false,
    }
}
