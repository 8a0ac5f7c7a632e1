ghost use Rattle.std.specs.Prelude.{◌≡◌, ◌^◌, nat_lt};
ghost use Rattle.machine_effect.specs.Numbers.{fits as fits_bits};
ghost use Rattle.amd64_table.specs.Fits as spec;

use crate::instr::Instr;
use crate::memory::{Mem, Rm};
use crate::reg::Reg;

/// Whether an instruction is listed: what its type leaves open. An index isn't SP, LOCK stands only before what writes
/// memory, the count of a shift is below the width, and MOVQ of a constant to a register has none of 0 to 2^32 - 1,
/// which MOVL has.
pub fn fits(instr: &Instr) -> bool
    ensures { result ≡ spec.fits instr.now }
{
    is_listed(*instr)
}

#[tactic(auto, unfolding(crate::specs::Fits::fits))]
fn is_listed(instr: Instr) -> bool
    ensures { result ≡ spec.fits instr }
{
    match instr {
        Instr::RegRm { rm, .. } => fits_rm(rm),
        Instr::ArithmeticReg { lock, to, .. } => fits_lock(lock, to) && fits_rm(to),
        Instr::MemReg { mem, .. } => fits_mem(mem),
        Instr::ArithmeticConst {
            lock,
            constant,
            to,
            ..
        } => fits_lock(lock, to) && fits_rm(to) && fits_long(constant),
        Instr::CompareConst { rm, constant, .. } => fits_rm(rm) && fits_long(constant),
        Instr::StoreLow { to, .. } => fits_mem(to),
        Instr::Extend { from, .. } => fits_rm(from),
        Instr::LoadLong { constant, .. } => fits_unsigned(constant),
        Instr::LoadQuad { constant, .. } => is_quad_constant(constant) && fits_quad(constant),
        Instr::StoreConst { constant, to, .. } => fits_mem(to) && fits_long(constant),
        Instr::StoreByte { constant, to } => fits_mem(to) && fits_byte(constant),
        Instr::Lea { from, .. } => fits_mem(from),
        Instr::Unary { lock, rm, .. } => fits_lock(lock, rm) && fits_rm(rm),
        Instr::MulDiv { rm, .. } => fits_rm(rm),
        Instr::RmReg { from, .. } => fits_rm(from),
        Instr::ShiftConst {
            width,
            count,
            rm,
            ..
        } => count < width.bits() && fits_rm(rm),
        Instr::ShiftCx { rm, .. } => fits_rm(rm),
        Instr::Exchange { mem, .. } => fits_mem(mem),
        Instr::Atomic { mem, .. } => fits_mem(mem),
        Instr::SetCc { to, .. } => fits_rm(to),
        Instr::MoveCc { from, .. } => fits_rm(from),
        Instr::Short { distance, .. } => fits_byte(distance),
        Instr::Near { distance, .. } => fits_long(distance),
        Instr::Indirect { rm, .. } => fits_rm(rm),
        Instr::LoadWide { from, .. } => fits_mem(from),
        Instr::StoreWide { to, .. } => fits_mem(to),
        Instr::Stack { .. }
        | Instr::SwapBytes { .. }
        | Instr::XorWide { .. }
        | Instr::LoadTls { .. }
        | Instr::Plain { .. } => true,
    }
}

// Each number of the type fits. The definitions speak of all numbers, so they say it.
fn fits_byte(constant: i8) -> bool
    ensures { result ≡ fits_bits 8 constant }
{
    let _ = constant;
    true
}

fn fits_long(constant: i32) -> bool
    ensures { result ≡ fits_bits 32 constant }
{
    let _ = constant;
    true
}

fn fits_quad(constant: i64) -> bool
    ensures { result ≡ fits_bits 64 constant }
{
    let _ = constant;
    true
}

fn fits_unsigned(constant: u32) -> bool
    ensures { result ≡ nat_lt constant (2 ^ 32) }
{
    let _ = constant;
    true
}

#[tactic(auto, unfolding(crate::specs::Fits::fits_mem))]
fn fits_mem(mem: Mem) -> bool
    ensures { result ≡ spec.fits_mem mem }
{
    match mem {
        Mem::Base { disp, .. } => fits_long(disp),
        Mem::Indexed { index, disp, .. } => is_index(index) && fits_long(disp),
        Mem::Symbol { distance } => fits_long(distance),
    }
}

fn is_index(reg: Reg) -> bool
    ensures { result ≡ spec.is_index reg }
{
    !matches!(reg, Reg::Sp)
}

#[tactic(auto, unfolding(crate::specs::Fits::fits_rm))]
fn fits_rm(rm: Rm) -> bool
    ensures { result ≡ spec.fits_rm rm }
{
    match rm {
        Rm::Reg(_) => true,
        Rm::Mem(mem) => fits_mem(mem),
    }
}

#[tactic(auto, unfolding(crate::specs::Fits::fits_lock))]
fn fits_lock(lock: bool, rm: Rm) -> bool
    ensures { result ≡ spec.fits_lock lock rm }
{
    match rm {
        Rm::Reg(_) => !lock,
        Rm::Mem(_) => true,
    }
}

#[tactic(auto, unfolding(crate::specs::Fits::is_quad_constant))]
fn is_quad_constant(constant: i64) -> bool
    ensures { result ≡ spec.is_quad_constant constant }
{
    constant < 0 || constant > i64::from(u32::MAX)
}
