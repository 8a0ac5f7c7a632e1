// What the instructions that move do. `end` is the address just behind the instruction.
ghost use Rattle.std.specs.Prelude.{◌≡◌};
ghost use Rattle.amd64_table.specs.Moves as spec;

use crate::computation::{flags_of, logic_flags, result_of};
use crate::condition::Cc;
use crate::forms::{computing, reading, setting, storing, testing, widening};
use crate::memory::{Mem, Rm};
use crate::op::{Extend, MemReg, RegRm, StoreSize};
use crate::reg::Reg;
use crate::values::{
    NOTHING, access_of, copy_of, moved_by, one_write, reg_atom, rm_atom, signed_atom, value_of,
};
use crate::width::Width;
use crate::xmm::Xmm;
use machine_effect::{Access, Atom, Effect, FlagRule, Logic, Op, Value, WideValue};

#[tactic(auto, unfolding(crate::specs::Moves::reg_rm_effect))]
pub fn reg_rm_effect(op: RegRm, width: Width, reg: Reg, rm: Rm, end: u64) -> Effect
    ensures { result ≡ spec.reg_rm_effect op width reg rm end }
{
    let a = rm_atom(rm);
    let b = reg_atom(reg);
    let bits = width.bits();
    match op {
        RegRm::Mov => setting(width.bytes(), end, rm, copy_of(b, bits)),
        RegRm::Cmp => testing(width, end, rm, FlagRule::Subtract { a, b, width: bits }),
        RegRm::Test => testing(width, end, rm, logic_flags(Logic::And, a, b, bits)),
    }
}

#[tactic(auto, unfolding(crate::specs::Moves::mem_reg_effect))]
pub fn mem_reg_effect(op: MemReg, width: Width, mem: Mem, reg: Reg, end: u64) -> Effect
    ensures { result ≡ spec.mem_reg_effect op width mem reg end }
{
    let rm = Rm::Mem(mem);
    let a = reg_atom(reg);
    let b = Atom::Loaded;
    let bits = width.bits();
    match op {
        MemReg::Mov => reading(
            width.bytes(),
            end,
            rm,
            reg,
            copy_of(b, bits),
            FlagRule::Keep,
        ),
        MemReg::Cmp => testing(width, end, rm, FlagRule::Subtract { a, b, width: bits }),
        MemReg::Arithmetic(op) => reading(
            width.bytes(),
            end,
            rm,
            reg,
            result_of(op, a, b, bits),
            flags_of(op, a, b, bits),
        ),
    }
}

#[tactic(auto, unfolding(crate::specs::Moves::store_low_effect))]
pub fn store_low_effect(size: StoreSize, from: Reg, to: Mem, end: u64) -> Effect
    ensures { result ≡ spec.store_low_effect size from to end }
{
    match size {
        StoreSize::Byte => storing(1, end, to, copy_of(reg_atom(from), 8)),
        StoreSize::Word => storing(2, end, to, copy_of(reg_atom(from), 16)),
    }
}

#[tactic(auto, unfolding(crate::specs::Moves::extend_bytes))]
fn extend_bytes(op: Extend) -> u8
    ensures { result ≡ spec.extend_bytes op }
{
    match op {
        Extend::ByteZero | Extend::ByteSign => 1,
        Extend::WordZero | Extend::WordSign => 2,
        Extend::LongSign => 4,
    }
}

#[tactic(auto, unfolding(crate::specs::Moves::extended))]
fn extended(op: Extend, a: Atom) -> Value
    ensures { result ≡ spec.extended op a }
{
    match op {
        Extend::ByteZero => copy_of(a, 8),
        Extend::WordZero => copy_of(a, 16),
        Extend::ByteSign => value_of(Op::SignExtend, a, Atom::Const(8), 64),
        Extend::WordSign => value_of(Op::SignExtend, a, Atom::Const(16), 64),
        Extend::LongSign => value_of(Op::SignExtend, a, Atom::Const(32), 64),
    }
}

#[tactic(auto, unfolding(crate::specs::Moves::extend_effect))]
pub fn extend_effect(op: Extend, from: Rm, to: Reg, end: u64) -> Effect
    ensures { result ≡ spec.extend_effect op from to end }
{
    reading(
        extend_bytes(op),
        end,
        from,
        to,
        extended(op, rm_atom(from)),
        FlagRule::Keep,
    )
}

#[tactic(auto, unfolding(crate::specs::Moves::store_const_effect))]
pub fn store_const_effect(width: Width, constant: i64, to: Mem, end: u64) -> Effect
    ensures { result ≡ spec.store_const_effect width constant to end }
{
    storing(
        width.bytes(),
        end,
        to,
        copy_of(signed_atom(constant), width.bits()),
    )
}

/// The address of a place in memory.
#[tactic(auto, unfolding(crate::specs::Moves::place_of))]
pub fn place_of(mem: Mem, end: u64) -> Value
    ensures { result ≡ spec.place_of mem end }
{
    match mem {
        Mem::Base { base, disp } => {
            value_of(Op::Add, reg_atom(base), signed_atom(i64::from(disp)), 64)
        }
        Mem::Indexed {
            base,
            index,
            scale,
            disp,
        } => Value {
            op: Op::AddScaled(scale.factor()),
            a: reg_atom(base),
            b: reg_atom(index),
            c: signed_atom(i64::from(disp)),
            width: 64,
        },
        Mem::Symbol { distance } => { copy_of(Atom::Const(moved_by(end, i64::from(distance))), 64) }
    }
}

#[tactic(auto, unfolding(crate::specs::Moves::move_cc_effect))]
pub fn move_cc_effect(code: Cc, width: Width, from: Rm, to: Reg, end: u64) -> Effect
    ensures { result ≡ spec.move_cc_effect code width from to end }
{
    let value = value_of(
        Op::Choose(code.cond()),
        rm_atom(from),
        reg_atom(to),
        width.bits(),
    );
    reading(width.bytes(), end, from, to, value, FlagRule::Keep)
}

#[tactic(auto, unfolding(crate::specs::Moves::load_wide_effect))]
pub fn load_wide_effect(from: Mem, to: Xmm, end: u64) -> Effect
    ensures { result ≡ spec.load_wide_effect from to end }
{
    widening(
        Some(access_of(16, end, from)),
        (to.number(), WideValue::Loaded),
    )
}

#[tactic(auto, unfolding(crate::specs::Moves::store_wide_effect))]
pub fn store_wide_effect(from: Xmm, to: Mem, end: u64) -> Effect
    ensures { result ≡ spec.store_wide_effect from to end }
{
    storing(16, end, to, copy_of(Atom::Wide(from.number()), 128))
}

#[tactic(auto, unfolding(crate::specs::Moves::load_tls_effect))]
pub fn load_tls_effect(to: Reg) -> Effect
    ensures { result ≡ spec.load_tls_effect to }
{
    let word = Access {
        width: 8,
        base: Atom::Reg(16),
        index: NOTHING,
        scale: 1,
        disp: -8,
    };
    computing(
        one_write(to.number(), copy_of(Atom::Loaded, 64)),
        Some(word),
        None,
        FlagRule::Keep,
    )
}
