ghost use Rattle.std.specs.Prelude.{◌≡◌, ◌≤◌};
ghost use Rattle.amd64_code.specs.Heads.{one_if, rex_byte};
ghost use Rattle.amd64_code.specs.Spelling as spec;

use amd64_table::{Mem, Rm};

/// The bits of the prefix REX.
#[derive(Clone, Copy, Debug, Default, PartialEq, Eq)]
pub struct Rex {
    /// The operation has 64 bits.
    pub w: bool,
    /// The fourth bit of ModRM's field reg.
    pub r: bool,
    /// The fourth bit of the index in SIB.
    pub x: bool,
    /// The fourth bit of ModRM's field rm, of the base in SIB, or of the register in the opcode.
    pub b: bool,
}

impl Rex {
    /// REX for a width of 64 bits, the register of ModRM's field reg, and an operand.
    pub fn of(w: bool, r: bool, rm: Rm) -> Rex
        ensures { result ≡ spec.rex_of w r rm }
    {
        Rex {
            w,
            r,
            x: rm_x(rm),
            b: rm_b(rm),
        }
    }

    /// REX where one register stands in the opcode alone.
    pub fn of_low(w: bool, b: bool) -> Rex
        ensures { result ≡ spec.rex_b w b }
    {
        Rex {
            w,
            r: false,
            x: false,
            b,
        }
    }

    /// The byte: 40 and the four bits.
    pub fn byte(self) -> u8
        ensures { result ≡ rex_byte self }
    {
        0x40 + 8 * one_if(self.w) + 4 * one_if(self.r) + 2 * one_if(self.x) + one_if(self.b)
    }
}

fn one_if(test: bool) -> u8
    ensures one { result ≡ one_if test }
    ensures most { result ≤ 1 }
{
    u8::from(test)
}

/// Whether an operand of one byte asks for REX by its register alone.
pub fn is_byte_operand(rm: Rm) -> bool
    ensures { result ≡ spec.is_byte_operand rm }
{
    match rm {
        Rm::Reg(reg) => reg.is_byte_high(),
        Rm::Mem(_) => false,
    }
}

#[tactic(auto, unfolding(crate::specs::Spelling::rm_x))]
fn rm_x(rm: Rm) -> bool
    ensures { result ≡ spec.rm_x rm }
{
    match rm {
        Rm::Mem(Mem::Indexed { index, .. }) => index.is_high(),
        _ => false,
    }
}

#[tactic(auto, unfolding(crate::specs::Spelling::rm_b))]
fn rm_b(rm: Rm) -> bool
    ensures { result ≡ spec.rm_b rm }
{
    match rm {
        Rm::Reg(reg) => reg.is_high(),
        Rm::Mem(Mem::Base { base, .. } | Mem::Indexed { base, .. }) => base.is_high(),
        Rm::Mem(Mem::Symbol { .. }) => false,
    }
}
