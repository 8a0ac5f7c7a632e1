ghost use Rattle.std.specs.Prelude.{◌≡◌, IfOk, IsBitSet};
ghost use Rattle.goasm_base.specs.Statements.{noframe};

use asm_target::{Part, Placed, Processor, SelectNo, Sequence, Site, Target, Width};
use asm_target_linked::{FrameOp, Instr, Linked, Op};
use goasm_base::{Function, List, Memory, Name, Operand, Pos, Stmt};
use stack_split::{checked, epilogue, frame_of, prologue};
use std::alloc::Global;
use std::test::Fail;

fn frame(op: FrameOp, bytes: u32) -> Instr {
    Instr::Frame { op, bytes }
}

fn near(distance: i8) -> Instr {
    Instr::Near {
        held: true,
        distance,
    }
}

#[test]
fn instructions_are_spelled_read_and_shown(rt: HostRuntime) -> Result<(), Memory> {
    for (instr, bytes, text) in [
        (
            Instr::Plain(Op::SetSp),
            b"\x03\0\0\0".as_slice(),
            b"SETSP".as_slice(),
        ),
        (
            frame(FrameOp::Below, 0x1_0203),
            b"\x22\0\0\0\x03\x02\x01\0".as_slice(),
            b"BELOW $66051".as_slice(),
        ),
        (
            near(-4),
            b"\x10\xfc\0\0".as_slice(),
            b"NEAR 0x0000000000000ffc".as_slice(),
        ),
    ] {
        assert_eq!(rt; Linked::spell(&instr).as_slice(), bytes);
        assert_eq!(rt; Linked::show(rt.alloc(), &instr, 0x1000)?.as_slice(), text);
        assert_eq!(rt; Linked::read(bytes), Some((instr, bytes.len())));
    }
    Ok(())
}

#[test]
fn a_branch_is_aimed_up_to_its_reach(rt: HostRuntime) {
    for (goal, want) in [
        (1127, Some(near(127))),
        (1128, None),
        (872, Some(near(-128))),
        (871, None),
    ] {
        assert_eq!(rt; Linked::aim(&near(0), Part::Whole, 1000, goal), want);
    }
    assert_eq!(rt; Linked::aim(&near(0), Part::High, 1000, 1000), None);
    assert_eq!(rt; Linked::forms(&near(5), 0).len(), 1);
    assert_eq!(rt; Linked::forms(&near(5), 1).len(), 2);
}

fn placed(instr: Instr) -> Placed<Instr> {
    Placed {
        at: 0,
        len: 4,
        instr,
    }
}

#[test]
fn sequences_have_borders(rt: HostRuntime) {
    let set = placed(Instr::Plain(Op::SetSp));
    let store = placed(Instr::Plain(Op::SaveAt));
    for (bytes, one, three) in [
        (0, false, false),
        (1, true, false),
        (240, true, false),
        (241, false, true),
        (1_048_576, false, true),
        (1_048_577, false, false),
    ] {
        let short = Linked::sequence(&[placed(frame(FrameOp::Save, bytes)), store]);
        assert_eq!(rt;
            short
                == (Sequence::Saving {
                    count: 1,
                    total: bytes
                }),
            one
        );
        let long = Linked::sequence(&[placed(frame(FrameOp::Below, bytes)), store, set]);
        assert_eq!(rt;
            long == (Sequence::Saving {
                count: 3,
                total: bytes
            }),
            three
        );
    }
    let cut = Linked::sequence(&[placed(frame(FrameOp::Below, 512)), store]);
    assert_eq!(rt; cut, Sequence::Plain);
}

fn statement(alloc: Global, op: &[u8], operand: Operand) -> Result<Stmt, Memory> {
    Ok(Stmt {
        pos: Pos::default(),
        lock: false,
        op: Name::from_slice(alloc, op)?,
        suffix: None,
        operands: List::new(Vec::from_array(alloc, [operand])?),
    })
}

#[test]
fn statements_become_one_instruction_or_are_refused(rt: HostRuntime) -> Result<(), Fail> {
    let alloc = rt.alloc();
    assert!(rt; Linked::is_word(b"SP"));
    assert!(rt; !Linked::is_word(b"AX"));
    assert_eq!(rt; Linked::width(b"ABOVE"), Width::Unknown);
    for (op, operand, want) in [
        (b"ABOVE".as_slice(), Operand::Imm(4_294_967_295), None),
        (b"ABOVE", Operand::Imm(4_294_967_296), Some(SelectNo::S4)),
        (
            b"ABOVE",
            Operand::Word(Name::from_slice(alloc, b"SP")?),
            Some(SelectNo::S3),
        ),
        (
            b"ABOVE",
            Operand::Word(Name::from_slice(alloc, b"AX")?),
            Some(SelectNo::S2),
        ),
        (b"BELOW", Operand::Imm(8), Some(SelectNo::S1)),
    ] {
        let stmt = statement(alloc, op, operand)?;
        match Linked::select(alloc, &stmt, Site::default()) {
            Ok(code) => {
                assert_eq!(rt; want, None);
                assert_eq!(rt; code.len(), 1);
            }
            Err(no) => assert_eq!(rt; Some(no), want),
        }
    }
    Ok(())
}

// A function without statements that has so many bytes of locals, and no flags.
fn function(alloc: Global, locals: u32) -> Result<Function, Memory>
    ensures locals { IfOk result (λ func. func.locals ≡ locals) }
    ensures frameless { IfOk result (λ func. IsBitSet func.flags noframe → func.locals ≡ 0) }
{
    Ok(Function {
        sym: 0,
        flags: 0,
        locals,
        args: None,
        pos: Pos::default(),
        stmts: List::new(Vec::new(alloc)),
    })
}

#[test]
fn frames_are_made_and_left(rt: HostRuntime) -> Result<(), Memory> {
    for (locals, want) in [
        (0u32, Ok(0u32)),
        (232, Ok(240)),
        (1_048_568, Ok(1_048_576)),
        (1_048_576, Err(1_048_584u64)),
    ] {
        let func = function(rt.alloc(), locals)?;
        let found = if func.locals % 8 == 0 {
            frame_of::<Linked>(&func)
        } else {
            Err(0)
        };
        match found {
            Ok(frame) => {
                assert_eq!(rt; Ok(frame.total), want);
                assert_eq!(rt; checked(&func, frame), frame.total >= 128);
                let begin = prologue::<Linked>(frame, true);
                let end = epilogue::<Linked>(frame);
                assert_eq!(rt; begin.len(), 4 + end.len());
            }
            Err(total) => assert_eq!(rt; Err(total), want),
        }
    }
    Ok(())
}
