ghost use Rattle.std.specs.Prelude.{◌≡◌, ◌≤◌, length};
ghost use Rattle.amd64_code.specs.InstructionSet as set;
ghost use Rattle.amd64_code.specs.Spelling.{spelling_of};

use crate::computation::{
    arithmetic_const, arithmetic_reg, atomic, compare_const, exchange, mul_div, rm_reg, set_cc,
    shift_const, shift_cx, swap_bytes, unary, xor_wide,
};
use crate::control::{indirect, near, plain, short, stack};
use crate::moves::{
    extend, lea, load_long, load_quad, load_tls, load_wide, mem_reg, move_cc, reg_rm, store_byte,
    store_const, store_low, store_wide,
};
use amd64_table::Instr;
use asm_target::Spelled;

/// The bytes of an instruction, its one listed spelling: LOCK, a prefix, REX, the opcode, ModRM, SIB, a displacement and a
/// constant, each only where it is needed, numbers lowest byte first (Intel 64 manual, volume 2, "Instruction Format").
///
/// REX stands exactly where a width of 64 bits, a register from 8 on, or a byte operand SP, BP, SI or DI asks for it. A
/// displacement of 0 is left out unless the base is BP or R13; otherwise it has one byte where that is enough, and so has a
/// constant of arithmetic. SIB stands exactly where there is an index or the base is SP or R12. What `fits` of `amd64_table`
/// refuses is spelled by the same rules, but isn't read back.
#[tactic(auto, using(crate::proofs::LengthLaws::bounded))]
pub fn spell(instr: &Instr) -> Spelled
    ensures spelling { result.items ≡ spelling_of instr.now }
    ensures least { 1 ≤ length result.items }
    ensures most { length result.items ≤ 15 }
{
    match *instr {
        Instr::RegRm { op, width, reg, rm } => reg_rm(op, width, reg, rm),
        Instr::ArithmeticReg {
            op,
            lock,
            width,
            from,
            to,
        } => arithmetic_reg(op, lock, width, from, to),
        Instr::MemReg {
            op,
            width,
            mem,
            reg,
        } => mem_reg(op, width, mem, reg),
        Instr::ArithmeticConst {
            op,
            lock,
            width,
            constant,
            to,
        } => arithmetic_const(op, lock, width, constant, to),
        Instr::CompareConst {
            width,
            rm,
            constant,
        } => compare_const(width, rm, constant),
        Instr::StoreLow { size, from, to } => store_low(size, from, to),
        Instr::Extend { op, from, to } => extend(op, from, to),
        Instr::LoadLong { constant, to } => load_long(constant, to),
        Instr::LoadQuad { constant, to } => load_quad(constant, to),
        Instr::StoreConst {
            width,
            constant,
            to,
        } => store_const(width, constant, to),
        Instr::StoreByte { constant, to } => store_byte(constant, to),
        Instr::Lea { from, to } => lea(from, to),
        Instr::Unary {
            op,
            lock,
            width,
            rm,
        } => unary(op, lock, width, rm),
        Instr::MulDiv { op, width, rm } => mul_div(op, width, rm),
        Instr::RmReg {
            op,
            width,
            from,
            to,
        } => rm_reg(op, width, from, to),
        Instr::ShiftConst {
            op,
            width,
            count,
            rm,
        } => shift_const(op, width, count, rm),
        Instr::ShiftCx { op, width, rm } => shift_cx(op, width, rm),
        Instr::Stack { op, reg } => stack(op, reg),
        Instr::Exchange { width, reg, mem } => exchange(width, reg, mem),
        Instr::Atomic {
            op,
            lock,
            width,
            reg,
            mem,
        } => atomic(op, lock, width, reg, mem),
        Instr::SetCc { code, to } => set_cc(code, to),
        Instr::MoveCc {
            code,
            width,
            from,
            to,
        } => move_cc(code, width, from, to),
        Instr::SwapBytes { width, reg } => swap_bytes(width, reg),
        Instr::Short { code, distance } => short(code, distance),
        Instr::Near { op, distance } => near(op, distance),
        Instr::Indirect { op, rm } => indirect(op, rm),
        Instr::LoadWide { from, to } => load_wide(from, to),
        Instr::StoreWide { from, to } => store_wide(from, to),
        Instr::XorWide { from, to } => xor_wide(from, to),
        Instr::LoadTls { to } => load_tls(to),
        Instr::Plain { op } => plain(op),
    }
}

/// The address just behind an instruction at `pc`, modulo 2^64.
pub fn end_of(instr: &Instr, pc: u64) -> u64
    ensures { result ≡ set.end_of instr.now pc }
{
    pc.wrapping_add(spell(instr).len() as u64)
}
