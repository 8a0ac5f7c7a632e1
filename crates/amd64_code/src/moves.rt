//! Spellings of what copies: loads, stores, extensions, constants and addresses, a function for each shape.
#![tactic(auto, unfolding(crate::specs::Spelling::spelling_of))]

ghost use Rattle.std.specs.Prelude.{◌≡◌};
ghost use Rattle.amd64_table.specs.declared.instr.Instr.TheVariants as instr;
ghost use Rattle.amd64_code.specs.Spelling as spec;
ghost use Rattle.amd64_code.specs.Spelling.{spelling_of};

use crate::constants::{push_all, push_byte, push_long, push_quad, push_unsigned};
use crate::head::{Head, Legacy, Opcode};
use crate::modrm::fields;
use crate::opcodes::{mem_reg_opcode, reg_rm_opcode};
use crate::rex::{Rex, is_byte_operand};
use amd64_table::{Cc, Extend, Mem, MemReg, Reg, RegRm, Rm, StoreSize, Width, Xmm};
use asm_target::Spelled;

/// `MOVQ reg, rm` (89 /r), `CMPQ rm, reg` (39 /r), `TESTQ reg, rm` (85 /r).
pub fn reg_rm(op: RegRm, width: Width, reg: Reg, rm: Rm) -> Spelled
    ensures { result.items ≡ spelling_of (instr.RegRm op width reg rm) }
{
    let rex = Rex::of(width.is_quad(), reg.is_high(), rm);
    let head = Head::plain(rex, Opcode::One(reg_rm_opcode(op)));
    head.with_rm(reg.low(), rm)
}

/// `MOVQ mem, reg` (8B /r), `CMPQ reg, mem` (3B /r), `ADDQ mem, reg` (03 /r, and 8 more for each further operation).
pub fn mem_reg(op: MemReg, width: Width, mem: Mem, reg: Reg) -> Spelled
    ensures { result.items ≡ spelling_of (instr.MemReg op width mem reg) }
{
    let rex = Rex::of(width.is_quad(), reg.is_high(), Rm::Mem(mem));
    let head = Head::plain(rex, Opcode::One(mem_reg_opcode(op)));
    head.with_rm(reg.low(), Rm::Mem(mem))
}

/// `MOVB from, to` (88 /r), `MOVW from, to` (66 89 /r).
pub fn store_low(size: StoreSize, from: Reg, to: Mem) -> Spelled
    ensures { result.items ≡ spelling_of (instr.StoreLow size from to) }
{
    store_low_head(size, from, to).with_rm(from.low(), Rm::Mem(to))
}

#[tactic(auto, unfolding(crate::specs::Spelling::store_low_head))]
fn store_low_head(size: StoreSize, from: Reg, to: Mem) -> Head
    ensures { result ≡ spec.store_low_head size from to }
{
    let rex = Rex::of(false, from.is_high(), Rm::Mem(to));
    match size {
        StoreSize::Byte => Head::byte(from.is_byte_high(), rex, Opcode::One(0x88)),
        StoreSize::Word => Head::prefixed(Legacy::OperandSize, rex, Opcode::One(0x89)),
    }
}

/// MOVBLZX (0F B6 /r), MOVWLZX (0F B7 /r), MOVBQSX (W 0F BE /r), MOVWQSX (W 0F BF /r), MOVLQSX (W 63 /r).
pub fn extend(op: Extend, from: Rm, to: Reg) -> Spelled
    ensures { result.items ≡ spelling_of (instr.Extend op from to) }
{
    extend_head(op, from, to).with_rm(to.low(), from)
}

#[tactic(auto, unfolding(crate::specs::Spelling::extend_head))]
fn extend_head(op: Extend, from: Rm, to: Reg) -> Head
    ensures { result ≡ spec.extend_head op from to }
{
    let long = Rex::of(false, to.is_high(), from);
    let quad = Rex::of(true, to.is_high(), from);
    match op {
        Extend::ByteZero => Head::byte(is_byte_operand(from), long, Opcode::Two(0xb6)),
        Extend::WordZero => Head::plain(long, Opcode::Two(0xb7)),
        Extend::ByteSign => Head::plain(quad, Opcode::Two(0xbe)),
        Extend::WordSign => Head::plain(quad, Opcode::Two(0xbf)),
        Extend::LongSign => Head::plain(quad, Opcode::One(0x63)),
    }
}

/// `MOVL $constant, to` (B8 plus the register, four bytes).
pub fn load_long(constant: u32, to: Reg) -> Spelled
    ensures { result.items ≡ spelling_of (instr.LoadLong constant to) }
{
    let rex = Rex::of_low(false, to.is_high());
    let mut bytes = Head::plain(rex, Opcode::One(0xb8 + to.low())).bytes();
    push_unsigned(&mut bytes, constant);
    bytes
}

/// `MOVQ $constant, to`: W C7 /0 with four bytes where they are enough, otherwise W B8 plus the register with eight.
#[tactic(auto, unfolding(crate::specs::Spelling::spelling_of, crate::specs::Spelling::load_quad_bytes))]
pub fn load_quad(constant: i64, to: Reg) -> Spelled
    ensures { result.items ≡ spelling_of (instr.LoadQuad constant to) }
{
    match i32::try_from(constant) {
        Ok(long) => {
            let rex = Rex::of(true, false, Rm::Reg(to));
            let mut bytes = Head::plain(rex, Opcode::One(0xc7)).with_rm(0, Rm::Reg(to));
            push_long(&mut bytes, long);
            bytes
        }
        Err(_) => {
            let rex = Rex::of_low(true, to.is_high());
            let mut bytes = Head::plain(rex, Opcode::One(0xb8 + to.low())).bytes();
            push_quad(&mut bytes, constant);
            bytes
        }
    }
}

/// `MOVQ $constant, to` in memory (C7 /0, four bytes).
pub fn store_const(width: Width, constant: i32, to: Mem) -> Spelled
    ensures { result.items ≡ spelling_of (instr.StoreConst width constant to) }
{
    let rex = Rex::of(width.is_quad(), false, Rm::Mem(to));
    let mut bytes = Head::plain(rex, Opcode::One(0xc7)).with_rm(0, Rm::Mem(to));
    push_long(&mut bytes, constant);
    bytes
}

/// `MOVB $constant, to` in memory (C6 /0, one byte).
pub fn store_byte(constant: i8, to: Mem) -> Spelled
    ensures { result.items ≡ spelling_of (instr.StoreByte constant to) }
{
    let rex = Rex::of(false, false, Rm::Mem(to));
    let mut bytes = Head::plain(rex, Opcode::One(0xc6)).with_rm(0, Rm::Mem(to));
    push_byte(&mut bytes, constant);
    bytes
}

/// `LEAQ from, to` (W 8D /r).
pub fn lea(from: Mem, to: Reg) -> Spelled
    ensures { result.items ≡ spelling_of (instr.Lea from to) }
{
    let rex = Rex::of(true, to.is_high(), Rm::Mem(from));
    Head::plain(rex, Opcode::One(0x8d)).with_rm(to.low(), Rm::Mem(from))
}

/// `CMOVQEQ from, to` (0F 40 plus the condition, /r).
pub fn move_cc(code: Cc, width: Width, from: Rm, to: Reg) -> Spelled
    ensures { result.items ≡ spelling_of (instr.MoveCc code width from to) }
{
    let rex = Rex::of(width.is_quad(), to.is_high(), from);
    let opcode = Opcode::Two(0x40 + code.number());
    Head::plain(rex, opcode).with_rm(to.low(), from)
}

/// `MOVOU from, to` (F3 0F 6F /r).
pub fn load_wide(from: Mem, to: Xmm) -> Spelled
    ensures { result.items ≡ spelling_of (instr.LoadWide from to) }
{
    let rex = Rex::of(false, to.is_high(), Rm::Mem(from));
    let head = Head::prefixed(Legacy::Repeat, rex, Opcode::Two(0x6f));
    head.with_rm(to.low(), Rm::Mem(from))
}

/// `MOVOU from, to` (F3 0F 7F /r).
pub fn store_wide(from: Xmm, to: Mem) -> Spelled
    ensures { result.items ≡ spelling_of (instr.StoreWide from to) }
{
    let rex = Rex::of(false, from.is_high(), Rm::Mem(to));
    let head = Head::prefixed(Legacy::Repeat, rex, Opcode::Two(0x7f));
    head.with_rm(from.low(), Rm::Mem(to))
}

/// `MOVQ (TLS), to` (64 W 8B /r): the address -8 alone, which ModRM and SIB 25 give, in the segment FS.
pub fn load_tls(to: Reg) -> Spelled
    ensures { result.items ≡ spelling_of (instr.LoadTls to) }
{
    let rex = Rex {
        w: true,
        r: to.is_high(),
        x: false,
        b: false,
    };
    let mut bytes = Head::prefixed(Legacy::Fs, rex, Opcode::One(0x8b)).bytes();
    bytes.push(fields(0, to.low(), 4));
    push_all(&mut bytes, b"\x25\xf8\xff\xff\xff");
    bytes
}
