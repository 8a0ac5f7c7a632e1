ghost use Rattle.std.specs.Prelude.{◌≡◌};

use crate::flag_rule::FlagRule;
use crate::next::Next;
use crate::op::Op;
use arrayvec::ArrayVec;

/// A number that an instruction reads.
#[derive(Clone, Copy, Debug, PartialEq, Eq)]
pub enum Atom {
    /// The general register of this number.
    Reg(u8),
    /// This number; a zero register is `Const(0)`.
    Const(u64),
    /// What the effect loads, lowest byte first; 0 where it loads nothing.
    Loaded,
    /// The X register of this number.
    Wide(u8),
}

impl Default for Atom {
    fn default() -> Self
        ensures { result ≡ Atom.Const 0 }
    {
        Atom::Const(0)
    }
}

/// A number that an instruction makes out of up to three others. A general register takes its lowest 64 bits, a
/// store as many bytes as it has.
#[derive(Clone, Copy, Debug, Default, PartialEq, Eq)]
pub struct Value {
    pub op: Op,
    pub a: Atom,
    pub b: Atom,
    pub c: Atom,
    /// The width of the operation in bits.
    pub width: u8,
}

/// Bytes of memory, from the address base plus index times scale plus displacement on, modulo 2^64.
#[derive(Clone, Copy, Debug, Default, PartialEq, Eq)]
pub struct Access {
    /// How many bytes.
    pub width: u8,
    pub base: Atom,
    /// `Const(0)` where there is none.
    pub index: Atom,
    pub scale: u8,
    pub disp: i64,
}

/// What an X register is set to.
#[derive(Clone, Copy, Debug, Default, PartialEq, Eq)]
pub enum WideValue {
    /// The 16 bytes that the effect loads (MOVOU).
    #[default]
    Loaded,
    /// The exclusive or of the X registers of these numbers (PXOR).
    Xor(u8, u8),
}

/// What an instruction does. All that it reads is read before it writes; where one register is written twice,
/// the last write stands. The link of `next` is written last.
#[derive(Debug, Drop)]
pub struct Effect {
    /// The general registers that are written, by number. A write to a zero register isn't listed.
    pub writes: ArrayVec<(u8, Value), 4>,
    /// The X register that is written, by number.
    pub wide: Option<(u8, WideValue)>,
    /// What is loaded.
    pub load: Option<Access>,
    /// What is stored, and where.
    pub store: Option<(Access, Value)>,
    pub flags: FlagRule,
    /// Where the machine goes on.
    pub next: Next,
}
