// The parts of an effect: atoms, values and accesses, and what a register or memory operand reads and takes.
ghost use Rattle.std.specs.Prelude.{◌≡◌, [], ◌∷◌};
ghost use Rattle.machine_effect.specs.Numbers.{moved_by};
ghost use Rattle.amd64_table.specs.Operands as operands;
ghost use Rattle.amd64_table.specs.Forms as spec;

use crate::memory::{Mem, Rm};
use crate::reg::Reg;
use arrayvec::ArrayVec;
use machine_effect::{Access, Atom, Op, Value};

pub const NOTHING: Atom = Atom::Const(0);

/// The registers that an effect writes.
pub type Writes = ArrayVec<(u8, Value), 4>;

pub fn reg_atom(reg: Reg) -> Atom
    ensures { result ≡ operands.reg_atom reg }
{
    Atom::Reg(reg.number())
}

/// A signed constant, extended to 64 bits.
pub fn signed_atom(constant: i64) -> Atom
    ensures { result ≡ operands.signed_atom constant }
{
    Atom::Const(constant.cast_unsigned())
}

pub fn value_of(op: Op, a: Atom, b: Atom, width: u8) -> Value
    ensures { result ≡ spec.value_of op a b width }
{
    Value {
        op,
        a,
        b,
        c: NOTHING,
        width,
    }
}

pub fn copy_of(a: Atom, width: u8) -> Value
    ensures { result ≡ spec.copy_of a width }
{
    value_of(Op::Copy, a, NOTHING, width)
}

/// The address that lies this far above another, modulo 2^64.
pub fn moved_by(address: u64, distance: i64) -> u64
    ensures { result ≡ moved_by address distance }
{
    address.wrapping_add(distance.cast_unsigned())
}

/// This many bytes at a place in memory, for an instruction that ends at `end`.
#[tactic(auto, unfolding(crate::specs::Operands::access_of))]
pub fn access_of(bytes: u8, end: u64, mem: Mem) -> Access
    ensures { result ≡ operands.access_of bytes end mem }
{
    match mem {
        Mem::Base { base, disp } => Access {
            width: bytes,
            base: reg_atom(base),
            index: NOTHING,
            scale: 1,
            disp: i64::from(disp),
        },
        Mem::Indexed {
            base,
            index,
            scale,
            disp,
        } => Access {
            width: bytes,
            base: reg_atom(base),
            index: reg_atom(index),
            scale: scale.factor(),
            disp: i64::from(disp),
        },
        Mem::Symbol { distance } => Access {
            width: bytes,
            base: Atom::Const(moved_by(end, i64::from(distance))),
            index: NOTHING,
            scale: 1,
            disp: 0,
        },
    }
}

/// What an operand reads.
#[tactic(auto, unfolding(crate::specs::Operands::rm_atom))]
pub fn rm_atom(rm: Rm) -> Atom
    ensures { result ≡ operands.rm_atom rm }
{
    match rm {
        Rm::Reg(reg) => reg_atom(reg),
        Rm::Mem(_) => Atom::Loaded,
    }
}

/// What is loaded of an operand.
#[tactic(auto, unfolding(crate::specs::Operands::load_of))]
pub fn load_of(bytes: u8, end: u64, rm: Rm) -> Option<Access>
    ensures { result ≡ operands.load_of bytes end rm }
{
    match rm {
        Rm::Reg(_) => None,
        Rm::Mem(mem) => Some(access_of(bytes, end, mem)),
    }
}

/// The register that takes a value where the operand is one.
#[tactic(auto, unfolding(crate::specs::Operands::writes_of))]
pub fn writes_of(rm: Rm, value: Value) -> Writes
    ensures { result.items ≡ operands.writes_of rm value }
{
    match rm {
        Rm::Reg(reg) => one_write(reg.number(), value),
        Rm::Mem(_) => ArrayVec::new(),
    }
}

/// The store of a value where the operand is memory.
#[tactic(auto, unfolding(crate::specs::Operands::store_of))]
pub fn store_of(bytes: u8, end: u64, rm: Rm, value: Value) -> Option<(Access, Value)>
    ensures { result ≡ operands.store_of bytes end rm value }
{
    match rm {
        Rm::Reg(_) => None,
        Rm::Mem(mem) => Some((access_of(bytes, end, mem), value)),
    }
}

pub fn one_write(register: u8, value: Value) -> Writes
    ensures { result.items ≡ (register, value) ∷ [] }
{
    let mut writes = ArrayVec::new();
    writes.push((register, value));
    writes
}

pub fn two_writes(first: (u8, Value), second: (u8, Value)) -> Writes
    ensures { result.items ≡ first ∷ second ∷ [] }
{
    let mut writes = ArrayVec::new();
    writes.push(first);
    writes.push(second);
    writes
}
