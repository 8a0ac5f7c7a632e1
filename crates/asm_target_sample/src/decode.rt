ghost use Rattle.std.specs.Prelude.{◌≡◌};
ghost use Rattle.asm_target_sample.specs.Reading.{reading};

use crate::instr::Instr;
use crate::register::Register;

/// The instruction that the bytes begin with, if they begin with one: whether they do is left to the caller.
#[tactic(auto, unfolding(crate::specs::Reading::reading))]
pub fn decode(bytes: &[u8]) -> Option<Instr>
    ensures { result ≡ reading bytes.now }
{
    match bytes {
        [0x90, ..] => Some(Instr::Nop),
        [0xc3, ..] => Some(Instr::Return),
        [0xe9, a, b, c, d, ..] => Some(Instr::Jump(i32::from_le_bytes([*a, *b, *c, *d]))),
        [0x48, 0x83, _, constant, ..] => Some(Instr::AddSp(constant.cast_signed())),
        [0x48, _, operands, ..] => Some(Instr::Move {
            from: Register::numbered(operands / 8 % 8),
            to: Register::numbered(operands % 8),
        }),
        [opcode, ..] => Some(Instr::Push(Register::numbered(opcode % 8))),
        [] => None,
    }
}
