ghost use Rattle.std.specs.Prelude.{◌≡◌};
ghost use Rattle.asm_target_linked.specs.Reading.{reading};

use crate::instr::{FrameOp, Instr, Op};

/// The instruction that the bytes begin with, if they begin with one: whether they do is left to the caller.
#[tactic(auto, unfolding(crate::specs::Reading::reading))]
pub fn decode(bytes: &[u8]) -> Option<Instr>
    ensures { result ≡ reading bytes.now }
{
    match bytes {
        [16, distance, ..] => Some(Instr::Near {
            held: true,
            distance: distance.cast_signed(),
        }),
        [17, distance, ..] => Some(Instr::Near {
            held: false,
            distance: distance.cast_signed(),
        }),
        [32, _, _, _, a, b, c, d, ..] => Some(Instr::Frame {
            op: FrameOp::Save,
            bytes: u32::from_le_bytes([*a, *b, *c, *d]),
        }),
        [33, _, _, _, a, b, c, d, ..] => Some(Instr::Frame {
            op: FrameOp::Load,
            bytes: u32::from_le_bytes([*a, *b, *c, *d]),
        }),
        [34, _, _, _, a, b, c, d, ..] => Some(Instr::Frame {
            op: FrameOp::Below,
            bytes: u32::from_le_bytes([*a, *b, *c, *d]),
        }),
        [35, _, _, _, a, b, c, d, ..] => Some(Instr::Frame {
            op: FrameOp::Above,
            bytes: u32::from_le_bytes([*a, *b, *c, *d]),
        }),
        [48, _, _, _, _, _, a, b, ..] => Some(Instr::Far {
            call: false,
            distance: i16::from_le_bytes([*a, *b]),
        }),
        [49, _, _, _, _, _, a, b, ..] => Some(Instr::Far {
            call: true,
            distance: i16::from_le_bytes([*a, *b]),
        }),
        [code, ..] => Some(Instr::Plain(Op::coded(*code))),
        [] => None,
    }
}
