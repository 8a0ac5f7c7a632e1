//! Spellings of what computes, a function for each shape.
#![tactic(auto, unfolding(crate::specs::Spelling::spelling_of))]

ghost use Rattle.std.specs.Prelude.{◌≡◌};
ghost use Rattle.amd64_table.specs.declared.instr.Instr.TheVariants as instr;
ghost use Rattle.amd64_code.specs.Spelling as spec;
ghost use Rattle.amd64_code.specs.Spelling.{spelling_of};

use crate::constants::{is_byte, push_short};
use crate::head::{Head, Legacy, Opcode};
use crate::modrm::fields;
use crate::opcodes::{
    arithmetic_digit, atomic_opcode, mul_div_digit, rm_reg_opcode, shift_digit, unary_digit,
    unary_opcode,
};
use crate::rex::{Rex, is_byte_operand};
use amd64_table::{
    Arithmetic, Atomic, Cc, Mem, MulDiv, Reg, Rm, RmReg, ShiftOp, Unary, Width, Xmm,
};
use asm_target::Spelled;

/// `ADDQ from, to` (01 /r, and 8 more for each further operation).
pub fn arithmetic_reg(op: Arithmetic, lock: bool, width: Width, from: Reg, to: Rm) -> Spelled
    ensures { result.items ≡ spelling_of (instr.ArithmeticReg op lock width from to) }
{
    let rex = Rex::of(width.is_quad(), from.is_high(), to);
    let opcode = Opcode::One(8 * arithmetic_digit(op) + 1);
    Head::locked(lock, rex, opcode).with_rm(from.low(), to)
}

/// `ADDQ $constant, to` (83 /n with a byte, 81 /n with four).
pub fn arithmetic_const(op: Arithmetic, lock: bool, width: Width, constant: i32, to: Rm) -> Spelled
    ensures { result.items ≡ spelling_of (instr.ArithmeticConst op lock width constant to) }
{
    let rex = Rex::of(width.is_quad(), false, to);
    let head = Head::locked(lock, rex, const_opcode(constant));
    let mut bytes = head.with_rm(arithmetic_digit(op), to);
    push_short(&mut bytes, constant);
    bytes
}

// 83 for a constant of one byte, 81 for one of four.
fn const_opcode(constant: i32) -> Opcode
    ensures { result ≡ spec.const_opcode constant }
{
    if is_byte(constant) {
        Opcode::One(0x83)
    } else {
        Opcode::One(0x81)
    }
}

/// `CMPQ rm, $constant` (83 /7, 81 /7).
pub fn compare_const(width: Width, rm: Rm, constant: i32) -> Spelled
    ensures { result.items ≡ spelling_of (instr.CompareConst width rm constant) }
{
    let rex = Rex::of(width.is_quad(), false, rm);
    let mut bytes = Head::plain(rex, const_opcode(constant)).with_rm(7, rm);
    push_short(&mut bytes, constant);
    bytes
}

/// INC (FF /0), DEC (FF /1), NOT (F7 /2), NEG (F7 /3).
pub fn unary(op: Unary, lock: bool, width: Width, rm: Rm) -> Spelled
    ensures { result.items ≡ spelling_of (instr.Unary op lock width rm) }
{
    let rex = Rex::of(width.is_quad(), false, rm);
    let head = Head::locked(lock, rex, Opcode::One(unary_opcode(op)));
    head.with_rm(unary_digit(op), rm)
}

/// MUL (F7 /4), DIV (F7 /6), IDIV (F7 /7).
pub fn mul_div(op: MulDiv, width: Width, rm: Rm) -> Spelled
    ensures { result.items ≡ spelling_of (instr.MulDiv op width rm) }
{
    let rex = Rex::of(width.is_quad(), false, rm);
    Head::plain(rex, Opcode::One(0xf7)).with_rm(mul_div_digit(op), rm)
}

/// IMUL (0F AF /r), BSF (0F BC /r), BSR (0F BD /r), POPCNT (F3 0F B8 /r).
pub fn rm_reg(op: RmReg, width: Width, from: Rm, to: Reg) -> Spelled
    ensures { result.items ≡ spelling_of (instr.RmReg op width from to) }
{
    let rex = Rex::of(width.is_quad(), to.is_high(), from);
    let head = Head::prefixed(rm_reg_legacy(op), rex, Opcode::Two(rm_reg_opcode(op)));
    head.with_rm(to.low(), from)
}

fn rm_reg_legacy(op: RmReg) -> Legacy
    ensures { result ≡ spec.rm_reg_legacy op }
{
    match op {
        RmReg::Popcnt => Legacy::Repeat,
        RmReg::Imul | RmReg::Bsf | RmReg::Bsr => Legacy::Absent,
    }
}

/// `SHLQ $count, rm` (C1 /4), SHR (/5), SAR (/7), ROL (/0), with one byte.
pub fn shift_const(op: ShiftOp, width: Width, count: u8, rm: Rm) -> Spelled
    ensures { result.items ≡ spelling_of (instr.ShiftConst op width count rm) }
{
    let rex = Rex::of(width.is_quad(), false, rm);
    let mut bytes = Head::plain(rex, Opcode::One(0xc1)).with_rm(shift_digit(op), rm);
    bytes.push(count);
    bytes
}

/// `SHLQ CX, rm` (D3 with the same digits).
pub fn shift_cx(op: ShiftOp, width: Width, rm: Rm) -> Spelled
    ensures { result.items ≡ spelling_of (instr.ShiftCx op width rm) }
{
    let rex = Rex::of(width.is_quad(), false, rm);
    Head::plain(rex, Opcode::One(0xd3)).with_rm(shift_digit(op), rm)
}

/// `XCHGQ reg, mem` (87 /r).
pub fn exchange(width: Width, reg: Reg, mem: Mem) -> Spelled
    ensures { result.items ≡ spelling_of (instr.Exchange width reg mem) }
{
    let rex = Rex::of(width.is_quad(), reg.is_high(), Rm::Mem(mem));
    Head::plain(rex, Opcode::One(0x87)).with_rm(reg.low(), Rm::Mem(mem))
}

/// `CMPXCHGQ reg, mem` (0F B1 /r), `XADDQ reg, mem` (0F C1 /r).
pub fn atomic(op: Atomic, lock: bool, width: Width, reg: Reg, mem: Mem) -> Spelled
    ensures { result.items ≡ spelling_of (instr.Atomic op lock width reg mem) }
{
    let rex = Rex::of(width.is_quad(), reg.is_high(), Rm::Mem(mem));
    let head = Head::locked(lock, rex, Opcode::Two(atomic_opcode(op)));
    head.with_rm(reg.low(), Rm::Mem(mem))
}

/// `SETEQ to` (0F 90 plus the condition, /0).
pub fn set_cc(code: Cc, to: Rm) -> Spelled
    ensures { result.items ≡ spelling_of (instr.SetCc code to) }
{
    let rex = Rex::of(false, false, to);
    let opcode = Opcode::Two(0x90 + code.number());
    Head::byte(is_byte_operand(to), rex, opcode).with_rm(0, to)
}

/// `BSWAPQ reg` (0F C8 plus the register).
pub fn swap_bytes(width: Width, reg: Reg) -> Spelled
    ensures { result.items ≡ spelling_of (instr.SwapBytes width reg) }
{
    let rex = Rex::of_low(width.is_quad(), reg.is_high());
    Head::plain(rex, Opcode::Two(0xc8 + reg.low())).bytes()
}

/// `PXOR from, to` (66 0F EF /r, `to` in the field reg).
pub fn xor_wide(from: Xmm, to: Xmm) -> Spelled
    ensures { result.items ≡ spelling_of (instr.XorWide from to) }
{
    let rex = Rex {
        w: false,
        r: to.is_high(),
        x: false,
        b: from.is_high(),
    };
    let mut bytes = Head::prefixed(Legacy::OperandSize, rex, Opcode::Two(0xef)).bytes();
    bytes.push(fields(3, to.low(), from.low()));
    bytes
}
