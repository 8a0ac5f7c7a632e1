// The forms that effects have in common.
ghost use Rattle.std.specs.Prelude.{◌≡◌};
ghost use Rattle.amd64_table.specs.Forms as spec;

use crate::memory::{Mem, Rm};
use crate::reg::Reg;
use crate::values::{Writes, access_of, load_of, one_write, store_of, writes_of};
use crate::width::Width;
use arrayvec::ArrayVec;
use machine_effect::{Access, Effect, FlagRule, Next, Value, WideValue};

/// An effect on general registers, memory and flags.
pub fn computing(
    writes: Writes,
    load: Option<Access>,
    store: Option<(Access, Value)>,
    flags: FlagRule,
) -> Effect
    ensures { result ≡ spec.computing writes.items load store flags }
{
    Effect {
        writes,
        wide: None,
        load,
        store,
        flags,
        next: Next::Fall,
    }
}

/// An effect that goes on elsewhere.
pub fn going(load: Option<Access>, next: Next) -> Effect
    ensures { result ≡ spec.going load next }
{
    Effect {
        writes: ArrayVec::new(),
        wide: None,
        load,
        store: None,
        flags: FlagRule::Keep,
        next,
    }
}

/// An effect on an X register.
pub fn widening(load: Option<Access>, write: (u8, WideValue)) -> Effect
    ensures { result ≡ spec.widening load write }
{
    Effect {
        writes: ArrayVec::new(),
        wide: Some(write),
        load,
        store: None,
        flags: FlagRule::Keep,
        next: Next::Fall,
    }
}

/// An operand that is read becomes a value.
#[tactic(auto, unfolding(crate::specs::Forms::changing))]
pub fn changing(width: Width, end: u64, rm: Rm, value: Value, flags: FlagRule) -> Effect
    ensures { result ≡ spec.changing width end rm value flags }
{
    computing(
        writes_of(rm, value),
        load_of(width.bytes(), end, rm),
        store_of(width.bytes(), end, rm, value),
        flags,
    )
}

/// An operand that isn't read becomes a value.
#[tactic(auto, unfolding(crate::specs::Forms::setting))]
pub fn setting(bytes: u8, end: u64, rm: Rm, value: Value) -> Effect
    ensures { result ≡ spec.setting bytes end rm value }
{
    computing(
        writes_of(rm, value),
        None,
        store_of(bytes, end, rm, value),
        FlagRule::Keep,
    )
}

/// An operand is read, and flags alone are set.
#[tactic(auto, unfolding(crate::specs::Forms::testing))]
pub fn testing(width: Width, end: u64, rm: Rm, flags: FlagRule) -> Effect
    ensures { result ≡ spec.testing width end rm flags }
{
    computing(
        ArrayVec::new(),
        load_of(width.bytes(), end, rm),
        None,
        flags,
    )
}

/// An operand is read, and a register becomes a value.
#[tactic(auto, unfolding(crate::specs::Forms::reading))]
pub fn reading(bytes: u8, end: u64, rm: Rm, reg: Reg, value: Value, flags: FlagRule) -> Effect
    ensures { result ≡ spec.reading bytes end rm reg value flags }
{
    computing(
        one_write(reg.number(), value),
        load_of(bytes, end, rm),
        None,
        flags,
    )
}

/// A register alone becomes a value.
#[tactic(auto, unfolding(crate::specs::Forms::loading))]
pub fn loading(reg: Reg, value: Value) -> Effect
    ensures { result ≡ spec.loading reg value }
{
    computing(one_write(reg.number(), value), None, None, FlagRule::Keep)
}

/// A value goes into memory.
#[tactic(auto, unfolding(crate::specs::Forms::storing))]
pub fn storing(bytes: u8, end: u64, mem: Mem, value: Value) -> Effect
    ensures { result ≡ spec.storing bytes end mem value }
{
    computing(
        ArrayVec::new(),
        None,
        Some((access_of(bytes, end, mem), value)),
        FlagRule::Keep,
    )
}

/// A register and memory become values, and both are read.
#[tactic(auto, unfolding(crate::specs::Forms::swapping))]
pub fn swapping(
    width: Width,
    end: u64,
    mem: Mem,
    write: (u8, Value),
    value: Value,
    flags: FlagRule,
) -> Effect
    ensures { result ≡ spec.swapping width end mem write value flags }
{
    let access = access_of(width.bytes(), end, mem);
    computing(
        one_write(write.0, write.1),
        Some(access),
        Some((access, value)),
        flags,
    )
}
