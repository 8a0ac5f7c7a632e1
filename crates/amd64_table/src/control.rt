// What the instructions of the stack, branches, and what has no operands do. `end` is the address just behind the
// instruction.
ghost use Rattle.std.specs.Prelude.{◌≡◌, ◌≤◌};
ghost use Rattle.amd64_table.specs.Control as spec;

use crate::condition::Cc;
use crate::forms::{computing, going, loading};
use crate::memory::Rm;
use crate::op::{Indirect, Near, Plain, Stack};
use crate::reg::Reg;
use crate::values::{
    NOTHING, copy_of, load_of, moved_by, one_write, reg_atom, rm_atom, two_writes, value_of,
};
use arrayvec::ArrayVec;
use machine_effect::{Access, Atom, Effect, FlagRule, Next, Op, Shift, Value};

fn stack_access(disp: i64) -> Access
    ensures { result ≡ spec.stack_access disp }
{
    Access {
        width: 8,
        base: reg_atom(Reg::Sp),
        index: NOTHING,
        scale: 1,
        disp,
    }
}

#[tactic(auto, unfolding(crate::specs::Control::stack_effect))]
pub fn stack_effect(op: Stack, reg: Reg) -> Effect
    ensures { result ≡ spec.stack_effect op reg }
{
    let sp = reg_atom(Reg::Sp);
    match op {
        Stack::Push => computing(
            one_write(
                Reg::Sp.number(),
                value_of(Op::Subtract, sp, Atom::Const(8), 64),
            ),
            None,
            Some((stack_access(-8), copy_of(reg_atom(reg), 64))),
            FlagRule::Keep,
        ),
        Stack::Pop => computing(
            two_writes(
                (Reg::Sp.number(), value_of(Op::Add, sp, Atom::Const(8), 64)),
                (reg.number(), copy_of(Atom::Loaded, 64)),
            ),
            Some(stack_access(0)),
            None,
            FlagRule::Keep,
        ),
    }
}

#[tactic(auto, unfolding(crate::specs::Control::short_effect))]
pub fn short_effect(code: Option<Cc>, distance: i64, end: u64) -> Effect
    ensures { result ≡ spec.short_effect code distance end }
{
    let goal = moved_by(end, distance);
    match code {
        None => going(None, Next::Jump(goal)),
        Some(code) => going(
            None,
            Next::Branch {
                cond: code.cond(),
                goal,
            },
        ),
    }
}

#[tactic(auto, unfolding(crate::specs::Control::near_effect))]
pub fn near_effect(op: Near, distance: i64, end: u64) -> Effect
    ensures { result ≡ spec.near_effect op distance end }
{
    let goal = moved_by(end, distance);
    match op {
        Near::Jmp => going(None, Next::Jump(goal)),
        Near::Call => going(None, Next::Call { goal, link: None }),
        Near::If(code) => going(
            None,
            Next::Branch {
                cond: code.cond(),
                goal,
            },
        ),
    }
}

#[tactic(auto, unfolding(crate::specs::Control::indirect_effect))]
pub fn indirect_effect(op: Indirect, rm: Rm, end: u64) -> Effect
    ensures { result ≡ spec.indirect_effect op rm end }
{
    let load = load_of(8, end, rm);
    let goal = rm_atom(rm);
    match op {
        Indirect::Jmp => going(load, Next::JumpTo(goal)),
        Indirect::Call => going(load, Next::CallTo { goal, link: None }),
    }
}

// The sign of AX in each bit.
fn sign_fill(width: u8) -> Value
    requires { 1 ≤ width }
    ensures { result ≡ spec.sign_fill width }
{
    value_of(
        Op::Shift(Shift::RightSigned),
        reg_atom(Reg::Ax),
        Atom::Const(u64::from(width - 1)),
        width,
    )
}

fn any() -> Value
    ensures { result ≡ spec.any }
{
    value_of(Op::Any, NOTHING, NOTHING, 32)
}

fn cpuid_effect() -> Effect
    ensures { result ≡ spec.cpuid_effect }
{
    let mut writes = ArrayVec::new();
    writes.push((Reg::Ax.number(), any()));
    writes.push((Reg::Bx.number(), any()));
    writes.push((Reg::Cx.number(), any()));
    writes.push((Reg::Dx.number(), any()));
    computing(writes, None, None, FlagRule::Keep)
}

#[tactic(auto, unfolding(crate::specs::Control::plain_effect))]
pub fn plain_effect(op: Plain) -> Effect
    ensures { result ≡ spec.plain_effect op }
{
    match op {
        Plain::Pause | Plain::Mfence => computing(ArrayVec::new(), None, None, FlagRule::Keep),
        Plain::Cdq => loading(Reg::Dx, sign_fill(32)),
        Plain::Cqo => loading(Reg::Dx, sign_fill(64)),
        Plain::Ret => going(None, Next::Return),
        Plain::Syscall => going(None, Next::System),
        Plain::Cpuid => cpuid_effect(),
        Plain::Rdtsc => computing(
            two_writes((Reg::Ax.number(), any()), (Reg::Dx.number(), any())),
            None,
            None,
            FlagRule::Keep,
        ),
        Plain::Undef => going(None, Next::Stop),
    }
}
