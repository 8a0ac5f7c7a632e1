//! The instructions whose opcode is one byte, a function for each row of the manual's opcode map that has several.
ghost use Rattle.std.specs.Prelude.{◌≡◌};
ghost use Rattle.amd64_code.specs.ModRm.{field_in};
ghost use Rattle.amd64_code.specs.Reading as spec;
ghost use Rattle.amd64_table.specs.declared.instr.Instr.TheVariants as instr;

use crate::constants::{byte_at, byte_in, long_in, quad_in, unsigned_in};
use crate::fields::Fields;
use crate::head::Legacy;
use crate::opcodes::{arithmetic_at, mul_div_at, shift_at};
use crate::registers::cc_at;
use amd64_table::{
    Extend, Indirect, Instr, MemReg, Near, Plain, RegRm, Rm, Stack, StoreSize, Unary, Width,
};

/// The instruction of an opcode of one byte.
#[tactic(auto, unfolding(crate::specs::Reading::one_byte))]
pub fn one_byte(fields: &Fields<'_>, opcode: u8) -> Instr
    ensures { result ≡ spec.one_byte fields.now.lock fields.now.legacy fields.now.rex opcode fields.now.tail.now }
{
    if opcode < 0x40 {
        return arithmetic_row(fields, opcode);
    }
    match opcode / 16 {
        5 => stack_row(fields, opcode),
        6 => Instr::Extend {
            op: Extend::LongSign,
            from: fields.rm(),
            to: fields.reg(),
        },
        7 => Instr::Short {
            code: Some(cc_at(opcode % 16)),
            distance: byte_in(fields.tail),
        },
        8 => row_8(fields, opcode),
        9 => row_9(fields, opcode),
        11 => row_b(fields, opcode),
        12 => row_c(fields, opcode),
        13 => Instr::ShiftCx {
            op: shift_at(fields.digit()),
            width: fields.width(),
            rm: fields.rm(),
        },
        14 => row_e(fields, opcode),
        _ => row_f(fields, opcode),
    }
}

// 00 to 3F.
#[tactic(auto, unfolding(crate::specs::Reading::arithmetic_row))]
fn arithmetic_row(fields: &Fields<'_>, opcode: u8) -> Instr
    ensures { result ≡ spec.arithmetic_row fields.now.lock fields.now.rex opcode fields.now.tail.now }
{
    let digit = opcode / 8;
    if opcode % 8 == 3 {
        Instr::MemReg {
            op: mem_reg_at(digit),
            width: fields.width(),
            mem: fields.mem(),
            reg: fields.reg(),
        }
    } else if digit == 7 {
        Instr::RegRm {
            op: RegRm::Cmp,
            width: fields.width(),
            reg: fields.reg(),
            rm: fields.rm(),
        }
    } else {
        Instr::ArithmeticReg {
            op: arithmetic_at(digit),
            lock: fields.lock,
            width: fields.width(),
            from: fields.reg(),
            to: fields.rm(),
        }
    }
}

fn mem_reg_at(digit: u8) -> MemReg
    ensures { result ≡ spec.mem_reg_at digit }
{
    if digit == 7 {
        MemReg::Cmp
    } else {
        MemReg::Arithmetic(arithmetic_at(digit))
    }
}

// 50 to 5F.
#[tactic(auto, unfolding(crate::specs::Reading::stack_row))]
fn stack_row(fields: &Fields<'_>, opcode: u8) -> Instr
    ensures { result ≡ spec.stack_row fields.now.rex opcode }
{
    let op = if opcode / 8 == 10 {
        Stack::Push
    } else {
        Stack::Pop
    };
    Instr::Stack {
        op,
        reg: fields.opcode_reg(opcode),
    }
}

// 81 and 83.
#[tactic(auto, unfolding(crate::specs::Reading::constant_group))]
fn constant_group(fields: &Fields<'_>, constant: i32) -> Instr
    ensures { result ≡ spec.constant_group fields.now.lock (spec.width_in fields.now.rex) (field_in fields.now.tail.now)
        (spec.operand_in fields.now.rex fields.now.tail.now) constant }
{
    match fields.digit() {
        7 => Instr::CompareConst {
            width: fields.width(),
            rm: fields.rm(),
            constant,
        },
        digit => Instr::ArithmeticConst {
            op: arithmetic_at(digit),
            lock: fields.lock,
            width: fields.width(),
            constant,
            to: fields.rm(),
        },
    }
}

// 89: MOVQ, MOVL, or MOVW to memory.
#[tactic(auto, unfolding(crate::specs::Reading::copy_or_store))]
fn copy_or_store(fields: &Fields<'_>) -> Instr
    ensures { result ≡ spec.copy_or_store fields.now.legacy fields.now.rex fields.now.tail.now }
{
    match fields.legacy {
        Legacy::OperandSize => Instr::StoreLow {
            size: StoreSize::Word,
            from: fields.reg(),
            to: fields.mem(),
        },
        _ => Instr::RegRm {
            op: RegRm::Mov,
            width: fields.width(),
            reg: fields.reg(),
            rm: fields.rm(),
        },
    }
}

// 8B: a load, or the base of thread-local storage.
#[tactic(auto, unfolding(crate::specs::Reading::load))]
fn load(fields: &Fields<'_>) -> Instr
    ensures { result ≡ spec.load fields.now.legacy fields.now.rex fields.now.tail.now }
{
    match fields.legacy {
        Legacy::Fs => Instr::LoadTls { to: fields.reg() },
        _ => Instr::MemReg {
            op: MemReg::Mov,
            width: fields.width(),
            mem: fields.mem(),
            reg: fields.reg(),
        },
    }
}

#[tactic(auto, unfolding(crate::specs::Reading::row_8))]
fn row_8(fields: &Fields<'_>, opcode: u8) -> Instr
    ensures { result ≡ spec.row_8 fields.now.lock fields.now.legacy fields.now.rex opcode fields.now.tail.now }
{
    match opcode {
        0x81 => constant_group(fields, long_in(fields.constant())),
        0x83 => constant_group(fields, i32::from(byte_in(fields.constant()))),
        0x85 => Instr::RegRm {
            op: RegRm::Test,
            width: fields.width(),
            reg: fields.reg(),
            rm: fields.rm(),
        },
        0x87 => Instr::Exchange {
            width: fields.width(),
            reg: fields.reg(),
            mem: fields.mem(),
        },
        0x88 => Instr::StoreLow {
            size: StoreSize::Byte,
            from: fields.reg(),
            to: fields.mem(),
        },
        0x89 => copy_or_store(fields),
        0x8b => load(fields),
        _ => Instr::Lea {
            from: fields.mem(),
            to: fields.reg(),
        },
    }
}

#[tactic(auto, unfolding(crate::specs::Reading::row_9))]
fn row_9(fields: &Fields<'_>, opcode: u8) -> Instr
    ensures { result ≡ spec.row_9 fields.now.rex opcode }
{
    let op = if opcode == 0x90 {
        Plain::Pause
    } else if fields.rex.w {
        Plain::Cqo
    } else {
        Plain::Cdq
    };
    Instr::Plain { op }
}

#[tactic(auto, unfolding(crate::specs::Reading::row_b))]
fn row_b(fields: &Fields<'_>, opcode: u8) -> Instr
    ensures { result ≡ spec.row_b fields.now.rex opcode fields.now.tail.now }
{
    let to = fields.opcode_reg(opcode);
    if fields.rex.w {
        Instr::LoadQuad {
            constant: quad_in(fields.tail),
            to,
        }
    } else {
        Instr::LoadLong {
            constant: unsigned_in(fields.tail),
            to,
        }
    }
}

// C7: MOVQ of a constant to a register, or a store of one.
#[tactic(auto, unfolding(crate::specs::Reading::constant_copy))]
fn constant_copy(width: Width, rm: Rm, constant: i32) -> Instr
    ensures { result ≡ spec.constant_copy width rm constant }
{
    match rm {
        Rm::Reg(to) => Instr::LoadQuad {
            constant: i64::from(constant),
            to,
        },
        Rm::Mem(to) => Instr::StoreConst {
            width,
            constant,
            to,
        },
    }
}

#[tactic(auto, unfolding(crate::specs::Reading::row_c))]
fn row_c(fields: &Fields<'_>, opcode: u8) -> Instr
    ensures { result ≡ spec.row_c fields.now.rex opcode fields.now.tail.now }
{
    match opcode {
        0xc1 => Instr::ShiftConst {
            op: shift_at(fields.digit()),
            width: fields.width(),
            count: byte_at(fields.constant(), 0),
            rm: fields.rm(),
        },
        0xc3 => Instr::Plain { op: Plain::Ret },
        0xc6 => Instr::StoreByte {
            constant: byte_in(fields.constant()),
            to: fields.mem(),
        },
        _ => constant_copy(fields.width(), fields.rm(), long_in(fields.constant())),
    }
}

#[tactic(auto, unfolding(crate::specs::Reading::row_e))]
fn row_e(fields: &Fields<'_>, opcode: u8) -> Instr
    ensures { result ≡ spec.row_e opcode fields.now.tail.now }
{
    match opcode {
        0xe8 => Instr::Near {
            op: Near::Call,
            distance: long_in(fields.tail),
        },
        0xe9 => Instr::Near {
            op: Near::Jmp,
            distance: long_in(fields.tail),
        },
        _ => Instr::Short {
            code: None,
            distance: byte_in(fields.tail),
        },
    }
}

fn unary(fields: &Fields<'_>, op: Unary) -> Instr
    ensures { result ≡ instr.Unary op fields.now.lock (spec.width_in fields.now.rex)
        (spec.operand_in fields.now.rex fields.now.tail.now) }
{
    Instr::Unary {
        op,
        lock: fields.lock,
        width: fields.width(),
        rm: fields.rm(),
    }
}

// F7.
#[tactic(auto, unfolding(crate::specs::Reading::unary_group))]
fn unary_group(fields: &Fields<'_>) -> Instr
    ensures { result ≡ spec.unary_group fields.now.lock (spec.width_in fields.now.rex) (field_in fields.now.tail.now)
        (spec.operand_in fields.now.rex fields.now.tail.now) }
{
    match fields.digit() {
        2 => unary(fields, Unary::Not),
        3 => unary(fields, Unary::Neg),
        digit => Instr::MulDiv {
            op: mul_div_at(digit),
            width: fields.width(),
            rm: fields.rm(),
        },
    }
}

// FF.
#[tactic(auto, unfolding(crate::specs::Reading::step_group))]
fn step_group(fields: &Fields<'_>) -> Instr
    ensures { result ≡ spec.step_group fields.now.lock (spec.width_in fields.now.rex) (field_in fields.now.tail.now)
        (spec.operand_in fields.now.rex fields.now.tail.now) }
{
    match fields.digit() {
        0 => unary(fields, Unary::Inc),
        1 => unary(fields, Unary::Dec),
        2 => Instr::Indirect {
            op: Indirect::Call,
            rm: fields.rm(),
        },
        _ => Instr::Indirect {
            op: Indirect::Jmp,
            rm: fields.rm(),
        },
    }
}

#[tactic(auto, unfolding(crate::specs::Reading::row_f))]
fn row_f(fields: &Fields<'_>, opcode: u8) -> Instr
    ensures { result ≡ spec.row_f fields.now.lock fields.now.rex opcode fields.now.tail.now }
{
    if opcode == 0xf7 {
        unary_group(fields)
    } else {
        step_group(fields)
    }
}
