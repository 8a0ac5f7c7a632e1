// Effects and their parts.
ghost use Rattle.std.specs.Prelude.{◌≡◌};
ghost use Rattle.asm_target_linked.specs.Instr as spec;
ghost use Rattle.machine_effect.specs.declared.op.Op.{Op as Operation};

use crate::instr::{FrameOp, Op};
use arrayvec::ArrayVec;
use machine_effect::{Access, Atom, Cond, Effect, FlagRule, Next, Value};

/// An effect that writes nothing and goes on here.
pub fn going(next: Next) -> Effect
    ensures { result ≡ spec.going next }
{
    Effect {
        writes: ArrayVec::new(),
        wide: None,
        load: None,
        store: None,
        flags: FlagRule::Keep,
        next,
    }
}

fn writing(register: u8, value: Value) -> Effect
    ensures { result ≡ spec.writing register value }
{
    let mut effect = going(Next::Fall);
    effect.writes.push((register, value));
    effect
}

fn word(op: machine_effect::Op, a: Atom, constant: u64) -> Value
    ensures { result ≡ spec.word op a constant }
{
    Value {
        op,
        a,
        b: Atom::Const(constant),
        c: Atom::Const(0),
        width: 64,
    }
}

fn eight_at(register: u8, disp: i64) -> Access
    ensures { result ≡ spec.eight_at register disp }
{
    Access {
        width: 8,
        base: Atom::Const(0),
        index: Atom::Reg(register),
        scale: 1,
        disp,
    }
}

/// The effect of an instruction without numbers.
pub fn plain_effect(op: Op) -> Effect
    ensures { result ≡ spec.plain_effect op }
{
    match op {
        Op::Nop => going(Next::Fall),
        Op::SaveAt => saving(going(Next::Fall), eight_at(31, 0)),
        Op::SetSp => writing(2, word(machine_effect::Op::Copy, Atom::Reg(31), 0)),
        Op::LoadLink => loading(1, eight_at(2, 0)),
        Op::Limit => loading(7, eight_at(27, 16)),
        Op::Return => going(Next::Return),
    }
}

fn loading(register: u8, access: Access) -> Effect
    ensures { result ≡ spec.loading register access }
{
    let mut effect = writing(register, word(machine_effect::Op::Copy, Atom::Loaded, 0));
    effect.load = Some(access);
    effect
}

// The link register is stored too.
fn saving(effect: Effect, access: Access) -> Effect
    ensures { result ≡ spec.saving effect access }
{
    let mut saves = effect;
    saves.store = Some((access, word(machine_effect::Op::Copy, Atom::Reg(1), 0)));
    saves
}

/// The effect of an instruction with a number of bytes.
pub fn frame_effect(op: FrameOp, bytes: u32) -> Effect
    ensures { result ≡ spec.frame_effect op bytes }
{
    let less = word(machine_effect::Op::Subtract, Atom::Reg(2), u64::from(bytes));
    let more = word(machine_effect::Op::Add, Atom::Reg(2), u64::from(bytes));
    match op {
        FrameOp::Save => saving(writing(2, less), eight_at(2, 0 - i64::from(bytes))),
        FrameOp::Load => {
            let mut effect = loading(1, eight_at(2, 0));
            effect.writes.push((2, more));
            effect
        }
        FrameOp::Below => writing(31, less),
        FrameOp::Above => writing(31, more),
    }
}

/// The condition of a branch.
pub fn cond(held: bool) -> Cond
    ensures { result ≡ spec.cond_of held }
{
    let (a, b, width) = (Atom::Reg(2), Atom::Reg(7), 64);
    if held {
        Cond::Below { a, b, width }
    } else {
        Cond::NotBelow { a, b, width }
    }
}

/// Where a distance from an address leads.
pub fn goal(pc: u64, distance: i64) -> u64
    ensures { result ≡ spec.goal_of pc distance }
{
    pc.wrapping_add_signed(distance)
}

/// Where a jump or a call goes on.
pub fn far_next(call: bool, goal: u64) -> Next
    ensures { result ≡ spec.far_next call goal }
{
    if call {
        Next::Call {
            goal,
            link: Some(5),
        }
    } else {
        Next::Jump(goal)
    }
}
