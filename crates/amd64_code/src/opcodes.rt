//! Opcodes and digits of operations (Intel 64 manual, volume 2, the opcode maps), both ways.
ghost use Rattle.std.specs.Prelude.{◌≡◌, ◌<◌, ◌≤◌};
ghost use Rattle.amd64_code.specs.Opcodes as spec;

use amd64_table::{
    Arithmetic, Atomic, Indirect, MemReg, MulDiv, RegRm, RmReg, ShiftOp, Stack, Unary,
};

/// The number of an operation in the opcodes 00 to 3F and as the digit of 81 and 83.
#[tactic(auto, unfolding(crate::specs::Opcodes::arithmetic_digit))]
pub fn arithmetic_digit(op: Arithmetic) -> u8
    ensures digit { result ≡ spec.arithmetic_digit op }
    ensures below { result < 7 }
{
    match op {
        Arithmetic::Add => 0,
        Arithmetic::Or => 1,
        Arithmetic::Adc => 2,
        Arithmetic::Sbb => 3,
        Arithmetic::And => 4,
        Arithmetic::Sub => 5,
        Arithmetic::Xor => 6,
    }
}

/// The operation of this number.
#[tactic(auto, unfolding(crate::specs::Opcodes::arithmetic_at))]
pub fn arithmetic_at(digit: u8) -> Arithmetic
    ensures { result ≡ spec.arithmetic_at digit }
{
    match digit {
        0 => Arithmetic::Add,
        1 => Arithmetic::Or,
        2 => Arithmetic::Adc,
        3 => Arithmetic::Sbb,
        4 => Arithmetic::And,
        5 => Arithmetic::Sub,
        _ => Arithmetic::Xor,
    }
}

/// 89, 39 or 85.
#[tactic(auto, unfolding(crate::specs::Opcodes::reg_rm_opcode))]
pub fn reg_rm_opcode(op: RegRm) -> u8
    ensures { result ≡ spec.reg_rm_opcode op }
{
    match op {
        RegRm::Mov => 0x89,
        RegRm::Cmp => 0x39,
        RegRm::Test => 0x85,
    }
}

/// 8B, 3B, or 03 and 8 more for each further operation.
#[tactic(auto, unfolding(crate::specs::Opcodes::mem_reg_opcode))]
pub fn mem_reg_opcode(op: MemReg) -> u8
    ensures { result ≡ spec.mem_reg_opcode op }
{
    match op {
        MemReg::Mov => 0x8b,
        MemReg::Cmp => 0x3b,
        MemReg::Arithmetic(op) => 8 * arithmetic_digit(op) + 3,
    }
}

/// FF or F7.
#[tactic(auto, unfolding(crate::specs::Opcodes::unary_opcode))]
pub fn unary_opcode(op: Unary) -> u8
    ensures { result ≡ spec.unary_opcode op }
{
    match op {
        Unary::Inc | Unary::Dec => 0xff,
        Unary::Not | Unary::Neg => 0xf7,
    }
}

/// The digit behind FF or F7.
#[tactic(auto, unfolding(crate::specs::Opcodes::unary_digit))]
pub fn unary_digit(op: Unary) -> u8
    ensures digit { result ≡ spec.unary_digit op }
    ensures below { result < 8 }
{
    match op {
        Unary::Inc => 0,
        Unary::Dec => 1,
        Unary::Not => 2,
        Unary::Neg => 3,
    }
}

/// The digit behind F7.
#[tactic(auto, unfolding(crate::specs::Opcodes::mul_div_digit))]
pub fn mul_div_digit(op: MulDiv) -> u8
    ensures digit { result ≡ spec.mul_div_digit op }
    ensures below { result < 8 }
{
    match op {
        MulDiv::Mul => 4,
        MulDiv::Div => 6,
        MulDiv::Idiv => 7,
    }
}

/// The operation of this digit.
#[tactic(auto, unfolding(crate::specs::Opcodes::mul_div_at))]
pub fn mul_div_at(digit: u8) -> MulDiv
    ensures { result ≡ spec.mul_div_at digit }
{
    match digit {
        4 => MulDiv::Mul,
        6 => MulDiv::Div,
        _ => MulDiv::Idiv,
    }
}

/// The byte behind 0F.
#[tactic(auto, unfolding(crate::specs::Opcodes::rm_reg_opcode))]
pub fn rm_reg_opcode(op: RmReg) -> u8
    ensures { result ≡ spec.rm_reg_opcode op }
{
    match op {
        RmReg::Imul => 0xaf,
        RmReg::Bsf => 0xbc,
        RmReg::Bsr => 0xbd,
        RmReg::Popcnt => 0xb8,
    }
}

/// The digit behind C1 and D3.
#[tactic(auto, unfolding(crate::specs::Opcodes::shift_digit))]
pub fn shift_digit(op: ShiftOp) -> u8
    ensures digit { result ≡ spec.shift_digit op }
    ensures below { result < 8 }
{
    match op {
        ShiftOp::Shl => 4,
        ShiftOp::Shr => 5,
        ShiftOp::Sar => 7,
        ShiftOp::Rol => 0,
    }
}

/// The operation of this digit.
#[tactic(auto, unfolding(crate::specs::Opcodes::shift_at))]
pub fn shift_at(digit: u8) -> ShiftOp
    ensures { result ≡ spec.shift_at digit }
{
    match digit {
        4 => ShiftOp::Shl,
        5 => ShiftOp::Shr,
        7 => ShiftOp::Sar,
        _ => ShiftOp::Rol,
    }
}

/// The opcode, to which the register is added.
#[tactic(auto, unfolding(crate::specs::Opcodes::stack_opcode))]
pub fn stack_opcode(op: Stack) -> u8
    ensures opcode { result ≡ spec.stack_opcode op }
    ensures most { result ≤ 0x58 }
{
    match op {
        Stack::Push => 0x50,
        Stack::Pop => 0x58,
    }
}

/// The byte behind 0F.
#[tactic(auto, unfolding(crate::specs::Opcodes::atomic_opcode))]
pub fn atomic_opcode(op: Atomic) -> u8
    ensures { result ≡ spec.atomic_opcode op }
{
    match op {
        Atomic::CompareExchange => 0xb1,
        Atomic::ExchangeAdd => 0xc1,
    }
}

/// The digit behind FF.
#[tactic(auto, unfolding(crate::specs::Opcodes::indirect_digit))]
pub fn indirect_digit(op: Indirect) -> u8
    ensures digit { result ≡ spec.indirect_digit op }
    ensures below { result < 8 }
{
    match op {
        Indirect::Jmp => 4,
        Indirect::Call => 2,
    }
}
