//! Spellings of the stack, of branches and of what has no operands, a function for each shape.
#![tactic(auto, unfolding(crate::specs::Spelling::spelling_of))]

ghost use Rattle.std.specs.Prelude.{◌≡◌, ◌≤◌, length};
ghost use Rattle.amd64_table.specs.declared.instr.Instr.TheVariants as instr;
ghost use Rattle.amd64_code.specs.Spelling as spec;
ghost use Rattle.amd64_code.specs.Spelling.{spelling_of};

use crate::constants::{push_all, push_byte, push_long};
use crate::head::{Head, Opcode};
use crate::opcodes::{indirect_digit, stack_opcode};
use crate::rex::Rex;
use amd64_table::{Cc, Indirect, Near, Plain, Reg, Rm, Stack};
use arrayvec::ArrayVec;
use asm_target::Spelled;

/// `PUSHQ reg` (50 plus the register), `POPQ reg` (58 plus the register).
pub fn stack(op: Stack, reg: Reg) -> Spelled
    ensures { result.items ≡ spelling_of (instr.Stack op reg) }
{
    let rex = Rex::of_low(false, reg.is_high());
    Head::plain(rex, Opcode::One(stack_opcode(op) + reg.low())).bytes()
}

/// `JMP goal` (EB), `JEQ goal` (70 plus the condition), with one byte.
pub fn short(code: Option<Cc>, distance: i8) -> Spelled
    ensures { result.items ≡ spelling_of (instr.Short code distance) }
{
    let mut bytes = Head::plain(Rex::of_low(false, false), short_opcode(code)).bytes();
    push_byte(&mut bytes, distance);
    bytes
}

#[tactic(auto, unfolding(crate::specs::Spelling::short_opcode))]
fn short_opcode(code: Option<Cc>) -> Opcode
    ensures { result ≡ spec.short_opcode code }
{
    match code {
        None => Opcode::One(0xeb),
        Some(code) => Opcode::One(0x70 + code.number()),
    }
}

/// `JMP goal` (E9), `CALL goal` (E8), `JEQ goal` (0F 80 plus the condition), with four bytes.
pub fn near(op: Near, distance: i32) -> Spelled
    ensures { result.items ≡ spelling_of (instr.Near op distance) }
{
    let mut bytes = Head::plain(Rex::of_low(false, false), near_opcode(op)).bytes();
    push_long(&mut bytes, distance);
    bytes
}

#[tactic(auto, unfolding(crate::specs::Spelling::near_opcode))]
fn near_opcode(op: Near) -> Opcode
    ensures { result ≡ spec.near_opcode op }
{
    match op {
        Near::Jmp => Opcode::One(0xe9),
        Near::Call => Opcode::One(0xe8),
        Near::If(code) => Opcode::Two(0x80 + code.number()),
    }
}

/// `JMP rm` (FF /4), `CALL rm` (FF /2).
pub fn indirect(op: Indirect, rm: Rm) -> Spelled
    ensures { result.items ≡ spelling_of (instr.Indirect op rm) }
{
    let rex = Rex::of(false, false, rm);
    Head::plain(rex, Opcode::One(0xff)).with_rm(indirect_digit(op), rm)
}

/// Instructions without operands.
pub fn plain(op: Plain) -> Spelled
    ensures { result.items ≡ spelling_of (instr.Plain op) }
{
    let mut bytes = ArrayVec::new();
    push_all(&mut bytes, plain_bytes(op));
    bytes
}

#[tactic(auto, unfolding(crate::specs::Spelling::plain_bytes))]
fn plain_bytes(op: Plain) -> &'static [u8]
    ensures bytes { result.now ≡ spec.plain_bytes op }
    ensures most { length result.now ≤ 3 }
{
    match op {
        Plain::Pause => b"\xf3\x90",
        Plain::Mfence => b"\x0f\xae\xf0",
        Plain::Cdq => b"\x99",
        Plain::Cqo => b"\x48\x99",
        Plain::Ret => b"\xc3",
        Plain::Syscall => b"\x0f\x05",
        Plain::Cpuid => b"\x0f\xa2",
        Plain::Rdtsc => b"\x0f\x31",
        Plain::Undef => b"\x0f\x0b",
    }
}
