ghost use Rattle.std.specs.Prelude.{◌≡◌, ◌∷◌, map};
ghost use Rattle.asm_target_linked.specs.Frames as spec;

use crate::instr::{FrameOp, Instr, Op};
use asm_target::{Few, FrameShape, Guard, Part, Picked, Placed, Refer, Sequence, To};

/// The instructions that enter a frame.
pub fn enter(frame: FrameShape) -> Few<Instr>
    ensures { result ≡ spec.entry frame }
{
    let bytes = frame.total;
    let mut code = Few::new();
    if bytes == 0 {
        return code;
    }
    if bytes <= 240 {
        code.push(Instr::Frame {
            op: FrameOp::Save,
            bytes,
        });
    } else {
        code.push(Instr::Frame {
            op: FrameOp::Below,
            bytes,
        });
        code.push(Instr::Plain(Op::SaveAt));
        code.push(Instr::Plain(Op::SetSp));
    }
    code
}

/// The instructions that leave a frame.
pub fn leave(frame: FrameShape) -> Few<Instr>
    ensures { result ≡ spec.exit frame }
{
    let bytes = frame.total;
    let mut code = Few::new();
    if bytes == 0 {
        return code;
    }
    if bytes <= 240 {
        code.push(Instr::Frame {
            op: FrameOp::Load,
            bytes,
        });
    } else {
        code.push(Instr::Plain(Op::LoadLink));
        code.push(Instr::Frame {
            op: FrameOp::Above,
            bytes,
        });
        code.push(Instr::Plain(Op::SetSp));
    }
    code
}

fn goes(instr: Instr, to: To) -> Picked<Instr>
    ensures { result ≡ spec.goes instr to }
{
    Picked {
        instr,
        refer: Some(Refer {
            to,
            part: Part::Whole,
        }),
    }
}

/// The check: it jumps over its block where the stack pointer isn't below the limit.
pub fn guard(frame: FrameShape) -> Guard<Instr>
    ensures { result ≡ spec.check frame }
{
    let mut head = Few::new();
    head.push(Picked {
        instr: Instr::Plain(Op::Limit),
        refer: None,
    });
    let past = Instr::Near {
        held: false,
        distance: 0,
    };
    head.push(goes(past, To::Past));
    let mut block = Few::new();
    let grow = Instr::Far {
        call: true,
        distance: 0,
    };
    block.push(goes(grow, To::Grow));
    let entry = Instr::Far {
        call: false,
        distance: 0,
    };
    block.push(goes(entry, To::Entry));
    Guard {
        head,
        block,
        in_place: true,
    }
}

/// The sequence that the instructions begin with.
pub fn sequence(code: &[Placed<Instr>]) -> Sequence
    ensures { result ≡ spec.begins (map (λ placed. placed.instr) code.now) }
{
    match code {
        [first, rest @ ..] => begun(first.instr, rest),
        [] => Sequence::Plain,
    }
}

fn begun(first: Instr, rest: &[Placed<Instr>]) -> Sequence
    ensures { result ≡ spec.begins (first ∷ map (λ placed. placed.instr) rest.now) }
{
    match first {
        Instr::Frame {
            op: FrameOp::Save,
            bytes,
        } if is_short(bytes) => Sequence::Saving {
            count: 1,
            total: bytes,
        },
        Instr::Frame {
            op: FrameOp::Load,
            bytes,
        } if is_short(bytes) => Sequence::Restoring {
            count: 1,
            total: bytes,
        },
        Instr::Frame {
            op: FrameOp::Below,
            bytes,
        } if is_long(bytes) && saves_next(rest) => Sequence::Saving {
            count: 3,
            total: bytes,
        },
        Instr::Plain(Op::LoadLink) => restored(rest),
        Instr::Far { call: true, .. } if jumps_next(rest) => Sequence::Growth { count: 2 },
        _ => Sequence::Plain,
    }
}

fn restored(code: &[Placed<Instr>]) -> Sequence
    ensures { result ≡ spec.restored (map (λ placed. placed.instr) code.now) }
{
    match code {
        [first, rest @ ..] => match first.instr {
            Instr::Frame {
                op: FrameOp::Above,
                bytes,
            } if is_long(bytes) && sets_next(rest) => Sequence::Restoring {
                count: 3,
                total: bytes,
            },
            _ => Sequence::Plain,
        },
        [] => Sequence::Plain,
    }
}

fn saves_next(code: &[Placed<Instr>]) -> bool
    ensures { result ≡ spec.saves_next (map (λ placed. placed.instr) code.now) }
{
    match code {
        [first, second, ..] => {
            matches!(first.instr, Instr::Plain(Op::SaveAt))
                && matches!(second.instr, Instr::Plain(Op::SetSp))
        }
        _ => false,
    }
}

fn sets_next(code: &[Placed<Instr>]) -> bool
    ensures { result ≡ spec.sets_next (map (λ placed. placed.instr) code.now) }
{
    match code {
        [first, ..] => matches!(first.instr, Instr::Plain(Op::SetSp)),
        _ => false,
    }
}

fn jumps_next(code: &[Placed<Instr>]) -> bool
    ensures { result ≡ spec.jumps_next (map (λ placed. placed.instr) code.now) }
{
    match code {
        [first, ..] => matches!(first.instr, Instr::Far { call: false, .. }),
        _ => false,
    }
}

fn is_short(total: u32) -> bool
    ensures { result ≡ spec.is_short total }
{
    0 < total && total <= 240
}

fn is_long(total: u32) -> bool
    ensures { result ≡ spec.is_long total }
{
    240 < total && total <= 1_048_576
}
