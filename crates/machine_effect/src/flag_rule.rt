use crate::effect::Atom;
use crate::op::{Logic, Shift};

/// What an instruction does to the five flags. Atoms are taken modulo 2^width. Where a line says that a flag
/// is free, the manual leaves it undefined and any value is allowed.
#[derive(Clone, Copy, Debug, Default, PartialEq, Eq)]
pub enum FlagRule {
    /// All flags stay.
    #[default]
    Keep,
    /// All flags are free (DIV, IDIV).
    Free,
    /// All five by a plus b (ADD, XADD).
    Add {
        a: Atom,
        b: Atom,
        width: u8,
    },
    /// All five by a plus b plus the carry flag (ADC).
    AddCarry {
        a: Atom,
        b: Atom,
        width: u8,
    },
    /// All five by a minus b; carry is the borrow (SUB, CMP, NEG, CMPXCHG).
    Subtract {
        a: Atom,
        b: Atom,
        width: u8,
    },
    /// All five by a minus b minus the carry flag; carry is the borrow (SBB).
    SubtractBorrow {
        a: Atom,
        b: Atom,
        width: u8,
    },
    /// Carry and over are cleared; zero, sign and parity by the result (AND, OR, XOR, TEST).
    Logic {
        logic: Logic,
        a: Atom,
        b: Atom,
        width: u8,
    },
    /// Carry stays; the others by a plus 1 (INC).
    Increment {
        a: Atom,
        width: u8,
    },
    /// Carry stays; the others by a minus 1 (DEC).
    Decrement {
        a: Atom,
        width: u8,
    },
    /// With a count that isn't 0 modulo the width: zero, sign and parity by the shifted number, carry and over
    /// free. Otherwise all stay (SHL, SHR, SAR).
    Shift {
        shift: Shift,
        a: Atom,
        count: Atom,
        width: u8,
    },
    /// With a count that isn't 0 modulo the width carry and over are free. The others stay, and with the count
    /// 0 all do (ROL).
    Rotate {
        count: Atom,
        width: u8,
    },
    /// Carry and over are set where the product has more than the width's bits; the others are free (MUL).
    Multiply {
        a: Atom,
        b: Atom,
        width: u8,
    },
    /// Carry and over are set where the signed product doesn't fit the width; the others are free (IMUL).
    SignedMultiply {
        a: Atom,
        b: Atom,
        width: u8,
    },
    /// Zero is set where the atom is 0; the others are free (BSF, BSR).
    Scan {
        a: Atom,
        width: u8,
    },
    /// Zero is set where the atom is 0; the others are cleared (POPCNT).
    CountOnes {
        a: Atom,
        width: u8,
    },
    /// Parity stays; the others by a plus the shifted b at 64 bits (ADDS of arm64).
    AddShifted {
        a: Atom,
        b: Atom,
        shift: Shift,
        count: u8,
    },
    /// Parity stays; the others by a minus the shifted b at 64 bits; carry means that nothing was borrowed (SUBS of
    /// arm64).
    SubtractShifted {
        a: Atom,
        b: Atom,
        shift: Shift,
        count: u8,
    },
    /// Parity stays, carry and over are cleared; zero and sign by a and the shifted b at 64 bits (ANDS of arm64).
    AndShifted {
        a: Atom,
        b: Atom,
        shift: Shift,
        count: u8,
    },
}
