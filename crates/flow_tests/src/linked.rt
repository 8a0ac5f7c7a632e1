//! Over a target with a link register. Its `CALL` links through another register, so that only a call in a sequence which has the
//! stack grow keeps F7. An instruction has four bytes, or eight where it is a `Frame`, `JMP` or `CALL`.

use crate::placing::judged;
use asm_target_linked::{FrameOp, Instr, Linked, Op};
use flow_rules::{FlowNo, Outside};
use goasm_base::Memory;
use std::alloc::Global;

const NOP: Instr = Instr::Plain(Op::Nop);

const SAVE_AT: Instr = Instr::Plain(Op::SaveAt);

const SET_SP: Instr = Instr::Plain(Op::SetSp);

const LOAD_LINK: Instr = Instr::Plain(Op::LoadLink);

const LIMIT: Instr = Instr::Plain(Op::Limit);

const RET: Instr = Instr::Plain(Op::Return);

fn save(bytes: u32) -> Instr {
    Instr::Frame {
        op: FrameOp::Save,
        bytes,
    }
}

fn load(bytes: u32) -> Instr {
    Instr::Frame {
        op: FrameOp::Load,
        bytes,
    }
}

fn below(bytes: u32) -> Instr {
    Instr::Frame {
        op: FrameOp::Below,
        bytes,
    }
}

fn above(bytes: u32) -> Instr {
    Instr::Frame {
        op: FrameOp::Above,
        bytes,
    }
}

// A branch. Distances are from the instruction itself.
fn near(distance: i8) -> Instr {
    Instr::Near {
        held: true,
        distance,
    }
}

fn jump(distance: i16) -> Instr {
    Instr::Far {
        call: false,
        distance,
    }
}

fn call(distance: i16) -> Instr {
    Instr::Far {
        call: true,
        distance,
    }
}

// What is told of a function that stands from 0x1000 on. The text goes from 0x800 to 0x2000 and has other entries at 0x900 and 0x1800.
// The routine that has the stack grow is at 0x5000.
fn told(alloc: Global, rows: &[(Instr, u32)]) -> Result<Option<Result<(), FlowNo>>, Memory> {
    let entries = [0x900, 0x1000, 0x1800];
    let growth = [0x4000, 0x5000];
    let out = Outside {
        first: 0x800,
        past: 0x2000,
        entries: &entries,
        growth: &growth,
    };
    judged::<Linked>(alloc, 0x1000, rows, &out)
}

fn breach(rule: u8, at: u64) -> Option<Result<(), FlowNo>> {
    Some(Err(FlowNo {
        rule,
        at,
        depths: (0, 0),
    }))
}

fn differing(at: u64, outgoing: i64, depth: i64) -> Option<Result<(), FlowNo>> {
    Some(Err(FlowNo {
        rule: 1,
        at,
        depths: (outgoing, depth),
    }))
}

#[test]
fn functions_keep_the_rules(rt: HostRuntime) -> Result<(), Memory> {
    let alloc = rt.alloc();
    assert_eq!(rt; told(alloc, &[(RET, 0)])?, Some(Ok(())));
    assert_eq!(rt;
        told(alloc, &[(save(16), 0), (load(16), 16), (RET, 0)])?,
        Some(Ok(()))
    );
    let large = [
        (below(512), 0),
        (SAVE_AT, 0),
        (SET_SP, 0),
        (NOP, 512),
        (LOAD_LINK, 512),
        (above(512), 512),
        (SET_SP, 512),
        (RET, 0),
    ];
    assert_eq!(rt; told(alloc, &large)?, Some(Ok(())));
    let grown = [
        (LIMIT, 0),
        (near(20), 0),
        (call(0x3ff8), 0),
        (jump(-16), 0),
        (RET, 0),
    ];
    assert_eq!(rt; told(alloc, &grown)?, Some(Ok(())));
    // A jump may go to the first instruction of a sequence.
    let looping = [
        (save(16), 0),
        (near(0), 16),
        (near(4), 16),
        (load(16), 16),
        (RET, 0),
    ];
    assert_eq!(rt; told(alloc, &looping)?, Some(Ok(())));
    Ok(())
}

#[test]
fn jumps_leave_for_entries_and_for_the_outside(rt: HostRuntime) -> Result<(), Memory> {
    let alloc = rt.alloc();
    for distance in [-0x801, -0x700, 0, 0x800, 0x1000, 0x2000] {
        assert_eq!(rt; told(alloc, &[(jump(distance), 0)])?, Some(Ok(())));
    }
    Ok(())
}

#[test]
fn depths_differ(rt: HostRuntime) -> Result<(), Memory> {
    let alloc = rt.alloc();
    assert_eq!(rt;
        told(alloc, &[(save(16), 0), (RET, 0)])?,
        differing(0x1000, 16, 0)
    );
    assert_eq!(rt;
        told(alloc, &[(NOP, 0), (RET, 8)])?,
        differing(0x1000, 0, 8)
    );
    // Only where a jump goes is the depth another.
    let back = [(save(16), 0), (near(-8), 16), (load(16), 16), (RET, 0)];
    assert_eq!(rt; told(alloc, &back)?, differing(0x1008, 16, 0));
    let ahead = [(near(8), 0), (RET, 0), (RET, 8)];
    assert_eq!(rt; told(alloc, &ahead)?, differing(0x1000, 0, 8));
    // Of two, the one of the lower address is told.
    let both = [(save(16), 0), (near(-8), 16), (RET, 8)];
    assert_eq!(rt; told(alloc, &both)?, differing(0x1008, 16, 0));
    let both = [(near(8), 0), (RET, 8), (RET, 16)];
    assert_eq!(rt; told(alloc, &both)?, differing(0x1000, 0, 8));
    // A sequence that a jump goes into, or that has another size than the frame, changes nothing.
    let hit = [
        (below(512), 0),
        (SAVE_AT, 0),
        (SET_SP, 0),
        (near(8), 512),
        (LOAD_LINK, 512),
        (above(512), 512),
        (SET_SP, 512),
        (RET, 0),
    ];
    assert_eq!(rt; told(alloc, &hit)?, differing(0x1020, 512, 0));
    let other = [(save(16), 0), (load(8), 16), (RET, 8)];
    assert_eq!(rt; told(alloc, &other)?, differing(0x1008, 16, 8));
    Ok(())
}

#[test]
fn the_stack_pointer_is_written_outside_of_sequences(rt: HostRuntime) -> Result<(), Memory> {
    let alloc = rt.alloc();
    assert_eq!(rt; told(alloc, &[(SET_SP, 0), (RET, 0)])?, breach(2, 0x1000));
    let framed = [(save(16), 0), (SET_SP, 16), (load(16), 16), (RET, 0)];
    assert_eq!(rt; told(alloc, &framed)?, breach(2, 0x1008));
    // The frame that's left has another size; it's too large for one instruction; the store is missing.
    let other = [(save(16), 0), (load(8), 16), (RET, 16)];
    assert_eq!(rt; told(alloc, &other)?, breach(2, 0x1008));
    assert_eq!(rt;
        told(alloc, &[(save(241), 0), (RET, 0)])?,
        breach(2, 0x1000)
    );
    assert_eq!(rt;
        told(alloc, &[(below(512), 0), (SET_SP, 0), (RET, 0)])?,
        breach(2, 0x1008)
    );
    let hit = [
        (below(512), 0),
        (SAVE_AT, 0),
        (SET_SP, 0),
        (near(16), 512),
        (LOAD_LINK, 512),
        (above(512), 512),
        (SET_SP, 512),
        (RET, 512),
    ];
    assert_eq!(rt; told(alloc, &hit)?, breach(2, 0x1020));
    Ok(())
}

#[test]
fn functions_are_left_at_a_depth(rt: HostRuntime) -> Result<(), Memory> {
    let alloc = rt.alloc();
    assert_eq!(rt;
        told(alloc, &[(save(16), 0), (RET, 16)])?,
        breach(3, 0x1008)
    );
    let large = [(below(512), 0), (SAVE_AT, 0), (SET_SP, 0), (RET, 512)];
    assert_eq!(rt; told(alloc, &large)?, breach(3, 0x1010));
    // Jumps to another entry, out of the text and just behind the function.
    for distance in [0x7f8, 0x1ff8, 8] {
        assert_eq!(rt;
            told(alloc, &[(save(16), 0), (jump(distance), 16)])?,
            breach(3, 0x1008)
        );
    }
    let branch = [(save(16), 0), (near(100), 16), (load(16), 16), (RET, 0)];
    assert_eq!(rt; told(alloc, &branch)?, breach(3, 0x1008));
    Ok(())
}

#[test]
fn jumps_go_into_the_middle_of_code(rt: HostRuntime) -> Result<(), Memory> {
    let alloc = rt.alloc();
    // Between the bytes of an instruction, to the text's first and last byte, before and behind entries, behind the function.
    for distance in [4, 7, -0x800, 0xfff, -0x701, 0x801, 8] {
        assert_eq!(rt; told(alloc, &[(jump(distance), 0)])?, breach(4, 0x1000));
    }
    assert_eq!(rt; told(alloc, &[(near(6), 0), (RET, 0)])?, breach(4, 0x1000));
    assert_eq!(rt;
        told(alloc, &[(RET, 0), (near(-2), 0), (RET, 0)])?,
        breach(4, 0x1004)
    );
    Ok(())
}

#[test]
fn calls_go_into_the_middle_of_code(rt: HostRuntime) -> Result<(), Memory> {
    let alloc = rt.alloc();
    // Between the bytes of an instruction, to an instruction that is no entry, to the text's first and last byte, beside entries.
    for distance in [4, 8, -0x800, 0xfff, -0x701, 0x801] {
        assert_eq!(rt;
            told(alloc, &[(call(distance), 0), (RET, 0)])?,
            breach(5, 0x1000)
        );
    }
    let framed = [(save(16), 0), (call(0x100), 16), (load(16), 16), (RET, 0)];
    assert_eq!(rt; told(alloc, &framed)?, breach(5, 0x1008));
    Ok(())
}

#[test]
fn the_last_instruction_goes_on(rt: HostRuntime) -> Result<(), Memory> {
    let alloc = rt.alloc();
    assert_eq!(rt; told(alloc, &[(NOP, 0)])?, breach(6, 0x1000));
    assert_eq!(rt; told(alloc, &[(NOP, 0), (LIMIT, 0)])?, breach(6, 0x1004));
    assert_eq!(rt; told(alloc, &[(RET, 0), (near(-4), 0)])?, breach(6, 0x1004));
    assert_eq!(rt; told(alloc, &[(call(0x800), 0)])?, breach(6, 0x1000));
    assert_eq!(rt;
        told(alloc, &[(NOP, 0), (call(0x3ffc), 0)])?,
        breach(6, 0x1004)
    );
    assert_eq!(rt; told(alloc, &[(save(16), 0)])?, breach(6, 0x1000));
    Ok(())
}

#[test]
fn calls_lose_the_return_address(rt: HostRuntime) -> Result<(), Memory> {
    let alloc = rt.alloc();
    assert_eq!(rt;
        told(alloc, &[(call(0x800), 0), (RET, 0)])?,
        breach(7, 0x1000)
    );
    let framed = [(save(16), 0), (call(0x7f8), 16), (load(16), 16), (RET, 0)];
    assert_eq!(rt; told(alloc, &framed)?, breach(7, 0x1008));
    // No jump follows, it goes to another function's entry, the routine is another, and the depth isn't 0.
    assert_eq!(rt;
        told(alloc, &[(call(0x4000), 0), (RET, 0)])?,
        breach(7, 0x1000)
    );
    assert_eq!(rt;
        told(alloc, &[(call(0x4000), 0), (jump(0x7f8), 0)])?,
        breach(7, 0x1000)
    );
    assert_eq!(rt;
        told(alloc, &[(call(0x4008), 0), (jump(-8), 0)])?,
        breach(7, 0x1000)
    );
    let framed = [(save(16), 0), (call(0x3ff8), 16), (jump(0), 16)];
    assert_eq!(rt; told(alloc, &framed)?, breach(7, 0x1008));
    // A jump goes into the sequence.
    let hit = [(near(12), 0), (call(0x3ffc), 0), (jump(-12), 0)];
    assert_eq!(rt; told(alloc, &hit)?, breach(7, 0x1004));
    Ok(())
}

#[test]
fn the_link_register_is_lost(rt: HostRuntime) -> Result<(), Memory> {
    let alloc = rt.alloc();
    assert_eq!(rt;
        told(alloc, &[(LOAD_LINK, 0), (RET, 0)])?,
        breach(8, 0x1000)
    );
    assert_eq!(rt; told(alloc, &[(SAVE_AT, 0), (RET, 0)])?, breach(8, 0x1000));
    let twice = [(save(16), 0), (save(16), 16), (RET, 32)];
    assert_eq!(rt; told(alloc, &twice)?, breach(8, 0x1008));
    let twice = [
        (save(16), 0),
        (below(512), 16),
        (SAVE_AT, 16),
        (SET_SP, 16),
        (RET, 528),
    ];
    assert_eq!(rt; told(alloc, &twice)?, breach(8, 0x1008));
    let hit = [
        (below(512), 0),
        (SAVE_AT, 0),
        (SET_SP, 0),
        (near(-8), 512),
        (RET, 512),
    ];
    assert_eq!(rt; told(alloc, &hit)?, breach(8, 0x1008));
    let early = [(LOAD_LINK, 0), (above(512), 0), (SET_SP, 0), (RET, 0)];
    assert_eq!(rt; told(alloc, &early)?, breach(8, 0x1000));
    Ok(())
}

#[test]
fn depths_have_bounds(rt: HostRuntime) -> Result<(), Memory> {
    let alloc = rt.alloc();
    assert_eq!(rt; told(alloc, &[(jump(0), 8)])?, breach(9, 0x1000));
    assert_eq!(rt; told(alloc, &[(NOP, 4), (jump(0), 4)])?, breach(9, 0x1000));
    assert_eq!(rt;
        told(alloc, &[(near(0), 16), (jump(0), 16)])?,
        breach(9, 0x1000)
    );
    assert_eq!(rt;
        told(alloc, &[(RET, 0), (jump(0), 1_052_673)])?,
        breach(9, 0x1004)
    );
    assert_eq!(rt;
        told(alloc, &[(RET, 0), (jump(0), 4_294_967_295)])?,
        breach(9, 0x1004)
    );
    assert_eq!(rt;
        told(alloc, &[(RET, 0), (jump(0), 1_052_672)])?,
        Some(Ok(()))
    );
    Ok(())
}
