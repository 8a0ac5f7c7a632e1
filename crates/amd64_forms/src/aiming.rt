ghost use Rattle.std.specs.Prelude.{◌≡◌, ℕ, ℤ, ◌<◌, ◌&&◌, Some, None, is_some, IsTrue, true, if◌then◌else◌};
ghost use Rattle.machine_effect.specs.Numbers.{fits as fits_bits, moved_by};
ghost use Rattle.amd64_forms.specs.Aiming as spec;

use crate::operands::{byte_of, long_of};
use amd64_table::{Instr, Mem, Near, Rm};

/// The jump with one byte for its distance; another instruction is as it is.
pub fn short_form(instr: Instr) -> Instr
    ensures { result ≡ spec.short_of instr }
{
    match instr {
        Instr::Near { op: Near::Jmp, .. } => Instr::Short {
            code: None,
            distance: 0,
        },
        Instr::Near {
            op: Near::If(code),
            ..
        } => Instr::Short {
            code: Some(code),
            distance: 0,
        },
        instr => instr,
    }
}

/// The jump with four bytes for its distance; another instruction is as it is.
pub fn long_form(instr: Instr) -> Instr
    ensures { result ≡ spec.long_of instr }
{
    match instr {
        Instr::Short {
            code: None,
            distance,
        } => Instr::Near {
            op: Near::Jmp,
            distance: i32::from(distance),
        },
        Instr::Short {
            code: Some(code),
            distance,
        } => Instr::Near {
            op: Near::If(code),
            distance: i32::from(distance),
        },
        instr => instr,
    }
}

/// How far an address lies above another, in bytes, modulo 2^64.
pub fn distance(from: u64, to: u64) -> i64
    ensures reaches { moved_by from result ≡ to }
    ensures sole { (d : ℤ) → IsTrue (fits_bits 64 d) → moved_by from d ≡ to → result ≡ d }
{
    to.wrapping_sub(from).cast_signed()
}

/// The instruction with this distance, in bytes, from its end to the address that it holds; `None` exactly where it holds no
/// address, or the distance has too many bits.
pub fn aimed(instr: Instr, distance: i64) -> Option<Instr>
    ensures { result ≡ spec.aimed instr distance }
{
    if is_branch(instr) {
        aimed_branch(instr, distance)
    } else {
        aimed_symbol(instr, distance)
    }
}

#[tactic(auto, unfolding(crate::specs::Aiming::is_branch))]
fn is_branch(instr: Instr) -> bool
    ensures { result ≡ spec.is_branch instr }
{
    matches!(instr, Instr::Short { .. } | Instr::Near { .. })
}

// A branch with this distance to its goal.
#[tactic(auto, unfolding(crate::specs::Aiming::is_branch, crate::specs::Aiming::distance_of, crate::specs::Aiming::distance_bits, crate::specs::Aiming::aimed_by))]
fn aimed_branch(instr: Instr, distance: i64) -> Option<Instr>
    ensures { spec.is_branch instr ≡ true → result ≡ spec.aimed instr distance }
{
    match instr {
        Instr::Short { code, .. } => Some(Instr::Short {
            code,
            distance: byte_of(distance)?,
        }),
        Instr::Near { op, .. } => Some(Instr::Near {
            op,
            distance: long_of(distance)?,
        }),
        _ => None,
    }
}

// An instruction other than a branch, with this distance to its symbol.
#[tactic(auto, unfolding(crate::specs::Aiming::aimed_by, crate::specs::Aiming::place_in))]
fn aimed_symbol(instr: Instr, distance: i64) -> Option<Instr>
    ensures { result ≡ (if is_some (spec.symbol_distance (spec.place_in instr)) && fits_bits 32 distance then Some (spec.aimed_by distance instr) else None) }
{
    let aimed = match instr {
        Instr::RegRm { op, width, reg, rm } => Instr::RegRm {
            op,
            width,
            reg,
            rm: symbol_rm(rm, distance)?,
        },
        Instr::ArithmeticReg {
            op,
            lock,
            width,
            from,
            to,
        } => Instr::ArithmeticReg {
            op,
            lock,
            width,
            from,
            to: symbol_rm(to, distance)?,
        },
        Instr::MemReg {
            op,
            width,
            mem,
            reg,
        } => Instr::MemReg {
            op,
            width,
            mem: symbol_mem(mem, distance)?,
            reg,
        },
        Instr::ArithmeticConst {
            op,
            lock,
            width,
            constant,
            to,
        } => Instr::ArithmeticConst {
            op,
            lock,
            width,
            constant,
            to: symbol_rm(to, distance)?,
        },
        Instr::CompareConst {
            width,
            rm,
            constant,
        } => Instr::CompareConst {
            width,
            rm: symbol_rm(rm, distance)?,
            constant,
        },
        Instr::StoreLow { size, from, to } => Instr::StoreLow {
            size,
            from,
            to: symbol_mem(to, distance)?,
        },
        Instr::Extend { op, from, to } => Instr::Extend {
            op,
            from: symbol_rm(from, distance)?,
            to,
        },
        Instr::StoreConst {
            width,
            constant,
            to,
        } => Instr::StoreConst {
            width,
            constant,
            to: symbol_mem(to, distance)?,
        },
        Instr::StoreByte { constant, to } => Instr::StoreByte {
            constant,
            to: symbol_mem(to, distance)?,
        },
        Instr::Lea { from, to } => Instr::Lea {
            from: symbol_mem(from, distance)?,
            to,
        },
        Instr::Unary {
            op,
            lock,
            width,
            rm,
        } => Instr::Unary {
            op,
            lock,
            width,
            rm: symbol_rm(rm, distance)?,
        },
        Instr::MulDiv { op, width, rm } => Instr::MulDiv {
            op,
            width,
            rm: symbol_rm(rm, distance)?,
        },
        Instr::RmReg {
            op,
            width,
            from,
            to,
        } => Instr::RmReg {
            op,
            width,
            from: symbol_rm(from, distance)?,
            to,
        },
        Instr::ShiftConst {
            op,
            width,
            count,
            rm,
        } => Instr::ShiftConst {
            op,
            width,
            count,
            rm: symbol_rm(rm, distance)?,
        },
        Instr::ShiftCx { op, width, rm } => Instr::ShiftCx {
            op,
            width,
            rm: symbol_rm(rm, distance)?,
        },
        Instr::Exchange { width, reg, mem } => Instr::Exchange {
            width,
            reg,
            mem: symbol_mem(mem, distance)?,
        },
        Instr::Atomic {
            op,
            lock,
            width,
            reg,
            mem,
        } => Instr::Atomic {
            op,
            lock,
            width,
            reg,
            mem: symbol_mem(mem, distance)?,
        },
        Instr::SetCc { code, to } => Instr::SetCc {
            code,
            to: symbol_rm(to, distance)?,
        },
        Instr::MoveCc {
            code,
            width,
            from,
            to,
        } => Instr::MoveCc {
            code,
            width,
            from: symbol_rm(from, distance)?,
            to,
        },
        Instr::Indirect { op, rm } => Instr::Indirect {
            op,
            rm: symbol_rm(rm, distance)?,
        },
        Instr::LoadWide { from, to } => Instr::LoadWide {
            from: symbol_mem(from, distance)?,
            to,
        },
        Instr::StoreWide { from, to } => Instr::StoreWide {
            from,
            to: symbol_mem(to, distance)?,
        },
        _ => return None,
    };
    Some(aimed)
}

fn symbol_rm(rm: Rm, distance: i64) -> Option<Rm>
    ensures { result ≡ (if is_some (spec.symbol_distance (spec.rm_place rm)) && fits_bits 32 distance then Some (spec.rm_by distance rm) else None) }
{
    match rm {
        Rm::Mem(mem) => Some(Rm::Mem(symbol_mem(mem, distance)?)),
        Rm::Reg(_) => None,
    }
}

fn symbol_mem(mem: Mem, distance: i64) -> Option<Mem>
    ensures { result ≡ (if is_some (spec.symbol_distance (Some mem)) && fits_bits 32 distance then Some (spec.mem_by distance mem) else None) }
{
    match mem {
        Mem::Symbol { .. } => Some(Mem::Symbol {
            distance: long_of(distance)?,
        }),
        _ => None,
    }
}
