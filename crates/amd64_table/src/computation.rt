// What the instructions that compute do. `end` is the address just behind the instruction.
ghost use Rattle.std.specs.Prelude.{◌≡◌};
ghost use Rattle.amd64_table.specs.Computation as spec;

use crate::condition::Cc;
use crate::forms::{changing, computing, loading, reading, storing, swapping, testing, widening};
use crate::memory::{Mem, Rm};
use crate::op::{Arithmetic, Atomic, MulDiv, RmReg, ShiftOp, Unary};
use crate::reg::Reg;
use crate::values::{
    NOTHING, copy_of, load_of, reg_atom, rm_atom, signed_atom, two_writes, value_of,
};
use crate::width::Width;
use crate::xmm::Xmm;
use machine_effect::{
    Atom, Cond, Division, Effect, FlagRule, Logic, Op, Shift, Signs, Value, WideValue,
};

#[tactic(auto, unfolding(crate::specs::Computation::result_of))]
pub fn result_of(op: Arithmetic, a: Atom, b: Atom, width: u8) -> Value
    ensures { result ≡ spec.result_of op a b width }
{
    let op = match op {
        Arithmetic::Add => Op::Add,
        Arithmetic::Or => Op::Logic(Logic::Or),
        Arithmetic::Adc => Op::AddCarry,
        Arithmetic::Sbb => Op::SubtractBorrow,
        Arithmetic::And => Op::Logic(Logic::And),
        Arithmetic::Sub => Op::Subtract,
        Arithmetic::Xor => Op::Logic(Logic::Xor),
    };
    value_of(op, a, b, width)
}

#[tactic(auto, unfolding(crate::specs::Computation::flags_of))]
pub fn flags_of(op: Arithmetic, a: Atom, b: Atom, width: u8) -> FlagRule
    ensures { result ≡ spec.flags_of op a b width }
{
    match op {
        Arithmetic::Add => FlagRule::Add { a, b, width },
        Arithmetic::Or => logic_flags(Logic::Or, a, b, width),
        Arithmetic::Adc => FlagRule::AddCarry { a, b, width },
        Arithmetic::Sbb => FlagRule::SubtractBorrow { a, b, width },
        Arithmetic::And => logic_flags(Logic::And, a, b, width),
        Arithmetic::Sub => FlagRule::Subtract { a, b, width },
        Arithmetic::Xor => logic_flags(Logic::Xor, a, b, width),
    }
}

pub fn logic_flags(logic: Logic, a: Atom, b: Atom, width: u8) -> FlagRule
    ensures { result ≡ FlagRule.Logic logic a b width }
{
    FlagRule::Logic { logic, a, b, width }
}

#[tactic(auto, unfolding(crate::specs::Computation::arithmetic_effect))]
pub fn arithmetic_effect(op: Arithmetic, width: Width, from: Atom, to: Rm, end: u64) -> Effect
    ensures { result ≡ spec.arithmetic_effect op width from to end }
{
    let a = rm_atom(to);
    let bits = width.bits();
    changing(
        width,
        end,
        to,
        result_of(op, a, from, bits),
        flags_of(op, a, from, bits),
    )
}

#[tactic(auto, unfolding(crate::specs::Computation::compare_const_effect))]
pub fn compare_const_effect(width: Width, rm: Rm, constant: i64, end: u64) -> Effect
    ensures { result ≡ spec.compare_const_effect width rm constant end }
{
    let a = rm_atom(rm);
    let b = signed_atom(constant);
    testing(
        width,
        end,
        rm,
        FlagRule::Subtract {
            a,
            b,
            width: width.bits(),
        },
    )
}

#[tactic(auto, unfolding(crate::specs::Computation::unary_value))]
fn unary_value(op: Unary, a: Atom, width: u8) -> Value
    ensures { result ≡ spec.unary_value op a width }
{
    match op {
        Unary::Inc => value_of(Op::Add, a, Atom::Const(1), width),
        Unary::Dec => value_of(Op::Subtract, a, Atom::Const(1), width),
        Unary::Not => value_of(Op::Logic(Logic::Xor), a, Atom::Const(u64::MAX), width),
        Unary::Neg => value_of(Op::Subtract, NOTHING, a, width),
    }
}

#[tactic(auto, unfolding(crate::specs::Computation::unary_flags))]
fn unary_flags(op: Unary, a: Atom, width: u8) -> FlagRule
    ensures { result ≡ spec.unary_flags op a width }
{
    match op {
        Unary::Inc => FlagRule::Increment { a, width },
        Unary::Dec => FlagRule::Decrement { a, width },
        Unary::Not => FlagRule::Keep,
        Unary::Neg => FlagRule::Subtract {
            a: NOTHING,
            b: a,
            width,
        },
    }
}

#[tactic(auto, unfolding(crate::specs::Computation::unary_effect))]
pub fn unary_effect(op: Unary, width: Width, rm: Rm, end: u64) -> Effect
    ensures { result ≡ spec.unary_effect op width rm end }
{
    let a = rm_atom(rm);
    let bits = width.bits();
    changing(
        width,
        end,
        rm,
        unary_value(op, a, bits),
        unary_flags(op, a, bits),
    )
}

// A division of DX and AX.
fn divided(division: Division, c: Atom, width: u8) -> Value
    ensures { result ≡ spec.divided_by division c width }
{
    Value {
        op: Op::Divide(division),
        a: reg_atom(Reg::Ax),
        b: reg_atom(Reg::Dx),
        c,
        width,
    }
}

#[tactic(auto, unfolding(crate::specs::Computation::ax_value))]
fn ax_value(op: MulDiv, a: Atom, width: u8) -> Value
    ensures { result ≡ spec.ax_value op a width }
{
    match op {
        MulDiv::Mul => value_of(Op::Multiply, reg_atom(Reg::Ax), a, width),
        MulDiv::Div => divided(Division::DoubleQuotient, a, width),
        MulDiv::Idiv => divided(Division::SignedDoubleQuotient, a, width),
    }
}

#[tactic(auto, unfolding(crate::specs::Computation::dx_value))]
fn dx_value(op: MulDiv, a: Atom, width: u8) -> Value
    ensures { result ≡ spec.dx_value op a width }
{
    match op {
        MulDiv::Mul => value_of(
            Op::MultiplyHigh(Signs::Unsigned),
            reg_atom(Reg::Ax),
            a,
            width,
        ),
        MulDiv::Div => divided(Division::DoubleRemainder, a, width),
        MulDiv::Idiv => divided(Division::SignedDoubleRemainder, a, width),
    }
}

#[tactic(auto, unfolding(crate::specs::Computation::mul_div_flags))]
fn mul_div_flags(op: MulDiv, a: Atom, width: u8) -> FlagRule
    ensures { result ≡ spec.mul_div_flags op a width }
{
    match op {
        MulDiv::Mul => FlagRule::Multiply {
            a: reg_atom(Reg::Ax),
            b: a,
            width,
        },
        MulDiv::Div | MulDiv::Idiv => FlagRule::Free,
    }
}

#[tactic(auto, unfolding(crate::specs::Computation::mul_div_effect))]
pub fn mul_div_effect(op: MulDiv, width: Width, rm: Rm, end: u64) -> Effect
    ensures { result ≡ spec.mul_div_effect op width rm end }
{
    let a = rm_atom(rm);
    let bits = width.bits();
    computing(
        two_writes(
            (Reg::Ax.number(), ax_value(op, a, bits)),
            (Reg::Dx.number(), dx_value(op, a, bits)),
        ),
        load_of(width.bytes(), end, rm),
        None,
        mul_div_flags(op, a, bits),
    )
}

#[tactic(auto, unfolding(crate::specs::Computation::rm_reg_value))]
fn rm_reg_value(op: RmReg, from: Atom, to: Atom, width: u8) -> Value
    ensures { result ≡ spec.rm_reg_value op from to width }
{
    match op {
        RmReg::Imul => value_of(Op::Multiply, to, from, width),
        RmReg::Bsf => value_of(Op::LowestSet, from, NOTHING, width),
        RmReg::Bsr => value_of(Op::HighestSet, from, NOTHING, width),
        RmReg::Popcnt => value_of(Op::CountOnes, from, NOTHING, width),
    }
}

#[tactic(auto, unfolding(crate::specs::Computation::rm_reg_flags))]
fn rm_reg_flags(op: RmReg, from: Atom, to: Atom, width: u8) -> FlagRule
    ensures { result ≡ spec.rm_reg_flags op from to width }
{
    match op {
        RmReg::Imul => FlagRule::SignedMultiply {
            a: to,
            b: from,
            width,
        },
        RmReg::Bsf | RmReg::Bsr => FlagRule::Scan { a: from, width },
        RmReg::Popcnt => FlagRule::CountOnes { a: from, width },
    }
}

#[tactic(auto, unfolding(crate::specs::Computation::rm_reg_effect))]
pub fn rm_reg_effect(op: RmReg, width: Width, from: Rm, to: Reg, end: u64) -> Effect
    ensures { result ≡ spec.rm_reg_effect op width from to end }
{
    let a = rm_atom(from);
    let b = reg_atom(to);
    let bits = width.bits();
    reading(
        width.bytes(),
        end,
        from,
        to,
        rm_reg_value(op, a, b, bits),
        rm_reg_flags(op, a, b, bits),
    )
}

#[tactic(auto, unfolding(crate::specs::Computation::shift_of))]
fn shift_of(op: ShiftOp) -> Shift
    ensures { result ≡ spec.shift_of op }
{
    match op {
        ShiftOp::Shl => Shift::Left,
        ShiftOp::Shr => Shift::Right,
        ShiftOp::Sar => Shift::RightSigned,
        ShiftOp::Rol => Shift::RotateLeft,
    }
}

fn shifting(shift: Shift, a: Atom, count: Atom, width: u8) -> FlagRule
    ensures { result ≡ FlagRule.Shift shift a count width }
{
    FlagRule::Shift {
        shift,
        a,
        count,
        width,
    }
}

#[tactic(auto, unfolding(crate::specs::Computation::shift_flags))]
fn shift_flags(op: ShiftOp, a: Atom, count: Atom, width: u8) -> FlagRule
    ensures { result ≡ spec.shift_flags op a count width }
{
    match op {
        ShiftOp::Shl => shifting(Shift::Left, a, count, width),
        ShiftOp::Shr => shifting(Shift::Right, a, count, width),
        ShiftOp::Sar => shifting(Shift::RightSigned, a, count, width),
        ShiftOp::Rol => FlagRule::Rotate { count, width },
    }
}

#[tactic(auto, unfolding(crate::specs::Computation::shift_effect))]
pub fn shift_effect(op: ShiftOp, width: Width, count: Atom, rm: Rm, end: u64) -> Effect
    ensures { result ≡ spec.shift_effect op width count rm end }
{
    let a = rm_atom(rm);
    let bits = width.bits();
    changing(
        width,
        end,
        rm,
        value_of(Op::Shift(shift_of(op)), a, count, bits),
        shift_flags(op, a, count, bits),
    )
}

#[tactic(auto, unfolding(crate::specs::Computation::exchange_effect))]
pub fn exchange_effect(width: Width, reg: Reg, mem: Mem, end: u64) -> Effect
    ensures { result ≡ spec.exchange_effect width reg mem end }
{
    let bits = width.bits();
    swapping(
        width,
        end,
        mem,
        (reg.number(), copy_of(Atom::Loaded, bits)),
        copy_of(reg_atom(reg), bits),
        FlagRule::Keep,
    )
}

#[tactic(auto, unfolding(crate::specs::Computation::atomic_effect))]
pub fn atomic_effect(op: Atomic, width: Width, reg: Reg, mem: Mem, end: u64) -> Effect
    ensures { result ≡ spec.atomic_effect op width reg mem end }
{
    match op {
        Atomic::CompareExchange => compare_exchange(width, reg, mem, end),
        Atomic::ExchangeAdd => exchange_add(width, reg, mem, end),
    }
}

fn compare_exchange(width: Width, reg: Reg, mem: Mem, end: u64) -> Effect
    ensures { result ≡ spec.compare_exchange width reg mem end }
{
    let bits = width.bits();
    let ax = reg_atom(Reg::Ax);
    let is_ax = Cond::Equal {
        a: ax,
        b: Atom::Loaded,
        width: bits,
    };
    swapping(
        width,
        end,
        mem,
        (
            Reg::Ax.number(),
            value_of(Op::Choose(is_ax), ax, Atom::Loaded, 64),
        ),
        value_of(Op::Choose(is_ax), reg_atom(reg), Atom::Loaded, bits),
        FlagRule::Subtract {
            a: ax,
            b: Atom::Loaded,
            width: bits,
        },
    )
}

fn exchange_add(width: Width, reg: Reg, mem: Mem, end: u64) -> Effect
    ensures { result ≡ spec.exchange_add width reg mem end }
{
    let bits = width.bits();
    let a = Atom::Loaded;
    let b = reg_atom(reg);
    swapping(
        width,
        end,
        mem,
        (reg.number(), copy_of(a, bits)),
        value_of(Op::Add, a, b, bits),
        FlagRule::Add { a, b, width: bits },
    )
}

#[tactic(auto, unfolding(crate::specs::Computation::set_cc_effect))]
pub fn set_cc_effect(code: Cc, to: Rm, end: u64) -> Effect
    ensures { result ≡ spec.set_cc_effect code to end }
{
    let op = Op::SetByte(code.cond());
    match to {
        Rm::Reg(reg) => loading(reg, value_of(op, reg_atom(reg), NOTHING, 64)),
        Rm::Mem(mem) => storing(1, end, mem, value_of(op, NOTHING, NOTHING, 8)),
    }
}

#[tactic(auto, unfolding(crate::specs::Computation::swap_bytes_effect))]
pub fn swap_bytes_effect(width: Width, reg: Reg) -> Effect
    ensures { result ≡ spec.swap_bytes_effect width reg }
{
    loading(
        reg,
        value_of(Op::ReverseBytes, reg_atom(reg), NOTHING, width.bits()),
    )
}

#[tactic(auto, unfolding(crate::specs::Computation::xor_wide_effect))]
pub fn xor_wide_effect(from: Xmm, to: Xmm) -> Effect
    ensures { result ≡ spec.xor_wide_effect from to }
{
    widening(
        None,
        (to.number(), WideValue::Xor(to.number(), from.number())),
    )
}
