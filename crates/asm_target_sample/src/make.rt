// Effects and their parts.
ghost use Rattle.std.specs.Prelude.{◌≡◌};
ghost use Rattle.machine_effect.specs.declared.next.Next.{Next};
ghost use Rattle.asm_target_sample.specs.Effects as spec;

use crate::register::Register;
use arrayvec::ArrayVec;
use machine_effect::{Access, Atom, Effect, FlagRule, Next, Op, Value};

/// An effect that writes nothing and goes on here.
pub fn going(next: Next) -> Effect
    ensures { result ≡ spec.going next }
{
    Effect {
        writes: ArrayVec::new(),
        wide: None,
        load: None,
        store: None,
        flags: FlagRule::Keep,
        next,
    }
}

/// An effect that writes one register and goes on behind the instruction.
pub fn writing(register: Register, value: Value) -> Effect
    ensures { result ≡ spec.writing register value }
{
    let mut effect = going(Next::Fall);
    effect.writes.push((register.number(), value));
    effect
}

pub fn copy(from: Register) -> Value
    ensures { result ≡ spec.copy_of from }
{
    Value {
        op: Op::Copy,
        a: Atom::Reg(from.number()),
        b: Atom::Const(0),
        c: Atom::Const(0),
        width: 64,
    }
}

/// The stack pointer and a constant under an operation.
pub fn with_sp(op: Op, constant: u64) -> Value
    ensures { result ≡ spec.with_sp op constant }
{
    Value {
        op,
        a: Atom::Reg(4),
        b: Atom::Const(constant),
        c: Atom::Const(0),
        width: 64,
    }
}

/// The eight bytes below the stack pointer.
pub fn below_sp() -> Access
    ensures { result ≡ spec.below_sp }
{
    Access {
        width: 8,
        base: Atom::Reg(4),
        index: Atom::Const(0),
        scale: 1,
        disp: -8,
    }
}

/// The stack pointer goes down by eight, and a register's number is stored there.
pub fn push(register: Register) -> Effect
    ensures { result ≡ spec.push register }
{
    let mut effect = writing(Register::Sp, with_sp(Op::Subtract, 8));
    effect.store = Some((below_sp(), copy(register)));
    effect
}

/// A constant is added to the stack pointer, and all flags tell of the sum.
pub fn add_to_sp(constant: u64) -> Effect
    ensures { result ≡ spec.add_to_sp constant }
{
    let mut effect = writing(Register::Sp, with_sp(Op::Add, constant));
    effect.flags = FlagRule::Add {
        a: Atom::Reg(4),
        b: Atom::Const(constant),
        width: 64,
    };
    effect
}

/// Where a jump at `pc` of five bytes goes.
pub fn goal(pc: u64, distance: i32) -> u64
    ensures { result ≡ spec.goal_of pc distance }
{
    pc.wrapping_add(5).wrapping_add_signed(i64::from(distance))
}
