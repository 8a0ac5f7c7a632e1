ghost use Rattle.std.specs.Prelude.{◌≡◌, ◌==◌, ℤ, true, false, IfSome};
ghost use Rattle.std.specs.List.{list_any};
ghost use Rattle.machine_effect.specs.Numbers as numbers;
ghost use Rattle.machine_effect.specs.Flow as spec;
ghost use Rattle.machine_effect.specs.Flow.{flow_of};
ghost use Rattle.machine_effect.specs.FlagsAfter as flags;
ghost use Rattle.machine_effect.specs.Applies as applies;
ghost use Rattle.machine_effect.specs.Steps.{KeepsRegister, MovesRegister, StoresCopy, SavesRegister};
ghost use Rattle.std.specs.Option.{option_map, option_copied};

use crate::effect::{Access, Atom, Effect, Value};
use crate::flag_rule::FlagRule;
use crate::next::Next;
use crate::op::Op;

/// Which registers of a target hold the stack pointer and, where there is one, the return address of a call.
#[derive(Clone, Copy, Debug, Default, PartialEq, Eq)]
pub struct Shape {
    /// The number of the stack pointer.
    pub sp: u8,
    /// The number of the link register.
    pub link: Option<u8>,
}

/// What an effect does to the stack pointer.
#[derive(Clone, Copy, Debug, Default, PartialEq, Eq)]
pub enum SpMove {
    /// It stays.
    #[default]
    Keep,
    /// It changes by this constant, modulo 2^64, in one of the ways in which code moves it: together with all five
    /// flags, a store of eight bytes at the new stack pointer or a load of eight bytes at the old one.
    By(i64),
    /// It's written otherwise.
    Other,
}

/// What an effect does to the stack pointer and the link register, and where the machine goes on.
#[derive(Clone, Copy, Debug, Default, PartialEq, Eq)]
pub struct Flow {
    pub sp: SpMove,
    /// The link register is among the writes, or is the link of `next`.
    pub writes_link: bool,
    /// Eight bytes are stored, and their value is a copy of the link register.
    pub stores_link: bool,
    /// The effect's own.
    pub next: Next,
}

/// What an effect does to the stack pointer and the link register.
///
/// The stack pointer's move is `Keep` exactly where the stack pointer isn't among the writes and isn't the link
/// of `next`. It's `By(k)` exactly where the stack pointer stands once among the writes and isn't the link of
/// `next`, where the value written to it is the 64-bit sum or difference of the stack pointer and a constant,
/// which is k above it, and where the effect sets all five flags, or stores eight bytes at the new stack pointer,
/// or loads eight bytes at the old one. Otherwise it's `Other`.
pub fn effect_flow(effect: &Effect, shape: &Shape) -> Flow
    ensures exact { result ≡ flow_of effect.now shape.now }
    ensures next { result.next ≡ effect.now.next }

    // What that says of each step by the effect.
    ensures keep { result.sp ≡ SpMove.Keep → KeepsRegister effect.now shape.now.sp }
    ensures by { (k : ℤ) → result.sp ≡ SpMove.By k → MovesRegister effect.now shape.now.sp k }
    ensures link_kept { IfSome shape.now.link (λ link. result.writes_link ≡ false → KeepsRegister effect.now link) }
    ensures link_unstored { IfSome shape.now.link (λ link. result.stores_link ≡ false → ¬ StoresCopy effect.now link) }
    ensures link_stored { IfSome shape.now.link (λ link. result.stores_link ≡ true → StoresCopy effect.now link) }
    ensures link_saved { IfSome shape.now.link (λ link. result.stores_link ≡ true → SavesRegister effect.now link) }
{
    read_flow(effect, shape)
}

#[tactic(auto, unfolding(crate::specs::Flow::flow_of))]
fn read_flow(effect: &Effect, shape: &Shape) -> Flow
    ensures { result ≡ flow_of effect.now shape.now }
{
    Flow {
        sp: sp_move(effect, shape.sp),
        writes_link: match shape.link {
            Some(link) => writes_register(effect, link),
            None => false,
        },
        stores_link: match shape.link {
            Some(link) => stores_register(effect, link),
            None => false,
        },
        next: effect.next,
    }
}

fn sp_move(effect: &Effect, sp: u8) -> SpMove
    ensures { result ≡ spec.sp_move_of effect.now sp }
{
    if !writes_register(effect, sp) {
        SpMove::Keep
    } else if links_to(effect.next, sp) {
        SpMove::Other
    } else {
        match sole_write(effect.writes.as_slice(), sp) {
            Some(value) => move_by(effect, sp, added_to(&value, sp)),
            None => SpMove::Other,
        }
    }
}

fn move_by(effect: &Effect, sp: u8, distance: Option<u64>) -> SpMove
    ensures { result ≡ spec.move_by effect.now sp distance }
{
    match distance {
        Some(distance) if is_stack_move(effect, sp, distance) => SpMove::By(signed(distance)),
        _ => SpMove::Other,
    }
}

fn is_stack_move(effect: &Effect, sp: u8, distance: u64) -> bool
    ensures { result ≡ spec.is_stack_move effect.now sp distance }
{
    sets_all_five(&effect.flags)
        || is_eight_at(&stored(effect), sp, distance)
        || is_eight_at(&effect.load, sp, 0)
}

// Where the effect stores.
fn stored(effect: &Effect) -> Option<Access>
    ensures { result ≡ option_map (λ store. store.0) effect.now.store }
{
    match &effect.store {
        Some((access, _)) => Some(*access),
        None => None,
    }
}

fn is_eight_at(access: &Option<Access>, register: u8, distance: u64) -> bool
    ensures { result ≡ spec.is_eight_at register distance access.now }
{
    match access {
        Some(access) => access.width == 8 && distance_from(access, register) == Some(distance),
        None => false,
    }
}

fn distance_from(access: &Access, register: u8) -> Option<u64>
    ensures { result ≡ spec.distance_from register access.now }
{
    let index = constant_after(access.base, access.index, register)?;
    let scaled = index.wrapping_mul(u64::from(access.scale));
    Some(scaled.wrapping_add(access.disp.cast_unsigned()))
}

fn added_to(value: &Value, register: u8) -> Option<u64>
    ensures { result ≡ spec.added_to register value.now }
{
    if value.width == 64 {
        added_by(value.op, value.a, value.b, register)
    } else {
        None
    }
}

fn added_by(op: Op, a: Atom, b: Atom, register: u8) -> Option<u64>
    ensures { result ≡ spec.added_by register op a b }
{
    match op {
        Op::Add => match constant_after(a, b, register) {
            Some(constant) => Some(constant),
            None => constant_after(b, a, register),
        },
        Op::Subtract => match constant_after(a, b, register) {
            Some(constant) => Some(constant.wrapping_neg()),
            None => None,
        },
        _ => None,
    }
}

// The second atom's constant, where the first is the register.
fn constant_after(first: Atom, second: Atom, register: u8) -> Option<u64>
    ensures { result ≡ spec.constant_after register first second }
{
    match (first, second) {
        (Atom::Reg(number), Atom::Const(constant)) if number == register => Some(constant),
        _ => None,
    }
}

// A distance of 64 bits as a signed number.
fn signed(distance: u64) -> i64
    ensures { result ≡ numbers.signed 64 distance }
{
    distance.cast_signed()
}

fn sets_all_five(rule: &FlagRule) -> bool
    ensures { result ≡ flags.sets_all_five rule.now }
{
    matches!(
        rule,
        FlagRule::Add { .. }
            | FlagRule::AddCarry { .. }
            | FlagRule::Subtract { .. }
            | FlagRule::SubtractBorrow { .. }
            | FlagRule::Logic { .. }
            | FlagRule::CountOnes { .. }
    )
}

fn writes_register(effect: &Effect, register: u8) -> bool
    ensures { result ≡ spec.writes_register effect.now register }
{
    links_to(effect.next, register) || is_written(effect.writes.as_slice(), register)
}

fn links_to(next: Next, register: u8) -> bool
    ensures { result ≡ spec.is_named register (applies.link_of next) }
{
    match next {
        Next::Call {
            link: Some(link),
            ..
        }
        | Next::CallTo {
            link: Some(link),
            ..
        } => link == register,
        _ => false,
    }
}

fn is_written(writes: &[(u8, Value)], register: u8) -> bool
    ensures { result ≡ list_any (λ write. write.0 == register) writes.now }
{
    writes.iter().any(|(number, _)| *number == register)
}

// The value that is written to a register which is written once.
fn sole_write(writes: &[(u8, Value)], register: u8) -> Option<Value>
    ensures { result ≡ spec.sole (spec.written_to register writes.now) }
{
    match writes {
        [] => None,
        [(number, value), rest @ ..] if *number == register => {
            if is_written(rest, register) {
                None
            } else {
                Some(*value)
            }
        }
        [_, rest @ ..] => sole_write(rest, register),
    }
}

fn stores_register(effect: &Effect, register: u8) -> bool
    ensures { result ≡ spec.stores_register register effect.now.store }
{
    match &effect.store {
        Some((access, value)) => access.width == 8 && is_copy_of(value, register),
        None => false,
    }
}

fn is_copy_of(value: &Value, register: u8) -> bool
    ensures { result ≡ spec.is_copy_of register value.now }
{
    is_copy(value.op) && value.width >= 64 && is_register(value.a, register)
}

fn is_copy(op: Op) -> bool
    ensures { result ≡ spec.is_copy op }
{
    matches!(op, Op::Copy)
}

fn is_register(atom: Atom, register: u8) -> bool
    ensures { result ≡ spec.is_register register atom }
{
    match atom {
        Atom::Reg(number) => number == register,
        _ => false,
    }
}
