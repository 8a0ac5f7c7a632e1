//! Effects, their flow and the memory of a machine.
use arrayvec::ArrayVec;
use goasm_base::Memory;
use machine_effect::{
    Access, Atom, Effect, FlagRule, Flow, Mem, Next, Op, Shape, SpMove, Value, call_links,
    effect_flow, flow_tells, keeps_widths, loads_numbers, one_write, stores_numbers, word_values,
};
use std::test::Fail;

const AMD64: Shape = Shape { sp: 4, link: None };

const ARM64: Shape = Shape {
    sp: 31,
    link: Some(30),
};

const RISCV64: Shape = Shape {
    sp: 2,
    link: Some(1),
};

// An effect that writes one register and goes on behind the instruction.
fn writing(register: u8, value: Value) -> Effect {
    let mut writes = ArrayVec::new();
    writes.push((register, value));
    Effect {
        writes,
        wide: None,
        load: None,
        store: None,
        flags: FlagRule::Keep,
        next: Next::Fall,
    }
}

// A value of 64 bits, of a register and a constant.
fn word(op: Op, register: u8, constant: u64) -> Value {
    Value {
        op,
        a: Atom::Reg(register),
        b: Atom::Const(constant),
        c: Atom::Const(0),
        width: 64,
    }
}

fn bytes_at(width: u8, register: u8, disp: i64) -> Access {
    Access {
        width,
        base: Atom::Reg(register),
        index: Atom::Const(0),
        scale: 1,
        disp,
    }
}

fn flow(effect: &Effect, shape: &Shape) -> (SpMove, bool, bool) {
    let Flow {
        sp,
        writes_link,
        stores_link,
        ..
    } = effect_flow(effect, shape);
    (sp, writes_link, stores_link)
}

#[test]
fn a_sum_moves_the_stack_pointer_with_all_five_flags(rt: HostRuntime) -> Result<(), Fail> {
    // LEAQ -24(SP), SP, and SUBQ $24, SP
    let mut effect = writing(4, word(Op::Subtract, 4, 24));
    assert_eq!(rt; flow(&effect, &AMD64), (SpMove::Other, false, false));
    effect.flags = FlagRule::Subtract {
        a: Atom::Reg(4),
        b: Atom::Const(24),
        width: 64,
    };
    assert_eq!(rt; flow(&effect, &AMD64), (SpMove::By(-24), false, false));
    assert_eq!(rt; flow(&effect, &RISCV64), (SpMove::Keep, false, false));
    // SUBL $24, SP
    effect.writes.clear();
    effect.writes.push((
        4,
        Value {
            width: 32,
            ..word(Op::Subtract, 4, 24)
        },
    ));
    assert_eq!(rt; flow(&effect, &AMD64), (SpMove::Other, false, false));
    Ok(())
}

#[test]
fn a_push_and_a_pop_move_the_stack_pointer(rt: HostRuntime) -> Result<(), Fail> {
    // PUSHQ AX
    let mut effect = writing(4, word(Op::Subtract, 4, 8));
    effect.store = Some((bytes_at(8, 4, -8), word(Op::Copy, 0, 0)));
    assert_eq!(rt; flow(&effect, &AMD64), (SpMove::By(-8), false, false));
    // a store of eight bytes elsewhere
    effect.store = Some((bytes_at(8, 4, -16), word(Op::Copy, 0, 0)));
    assert_eq!(rt; flow(&effect, &AMD64), (SpMove::Other, false, false));
    // MOVD.W R30, -32(RSP)
    let mut effect = writing(31, word(Op::Add, 31, u64::MAX - 31));
    effect.store = Some((bytes_at(8, 31, -32), word(Op::Copy, 30, 0)));
    assert_eq!(rt; flow(&effect, &ARM64), (SpMove::By(-32), false, true));
    // MOVD.P 32(RSP), R30
    let loaded = Value {
        a: Atom::Loaded,
        ..word(Op::Copy, 0, 0)
    };
    let mut effect = writing(30, loaded);
    assert!(rt; effect.writes.try_push((31, word(Op::Add, 31, 32))).is_ok());
    effect.load = Some(bytes_at(8, 31, 0));
    assert_eq!(rt; flow(&effect, &ARM64), (SpMove::By(32), true, false));
    // a load of four bytes
    effect.load = Some(bytes_at(4, 31, 0));
    assert_eq!(rt; flow(&effect, &ARM64), (SpMove::Other, true, false));
    Ok(())
}

#[test]
fn a_call_writes_its_link(rt: HostRuntime) -> Result<(), Fail> {
    // BL of arm64, and JAL X5 of riscv64
    let mut effect = writing(3, word(Op::Copy, 2, 0));
    effect.next = Next::Call {
        goal: 64,
        link: Some(30),
    };
    assert_eq!(rt; flow(&effect, &ARM64), (SpMove::Keep, true, false));
    effect.next = Next::CallTo {
        goal: Atom::Reg(6),
        link: Some(5),
    };
    assert_eq!(rt; flow(&effect, &RISCV64), (SpMove::Keep, false, false));
    // MOVW RA, 8(SP) stores four bytes
    effect.store = Some((bytes_at(4, 2, 8), word(Op::Copy, 1, 0)));
    assert_eq!(rt; flow(&effect, &RISCV64), (SpMove::Keep, false, false));
    effect.store = Some((bytes_at(8, 2, 8), word(Op::Copy, 1, 0)));
    assert_eq!(rt; flow(&effect, &RISCV64), (SpMove::Keep, false, true));
    Ok(())
}

// The laws are called, as a function that cites them calls them.
#[test]
fn laws_can_be_cited(_: HostRuntime) -> Result<(), Fail> {
    keeps_widths();
    flow_tells();
    call_links();
    one_write();
    word_values();
    loads_numbers();
    stores_numbers();
    Ok(())
}

#[test]
fn holds_bytes(rt: HostRuntime) -> Result<(), Memory> {
    let mut mem = Mem::new(rt.alloc());
    assert_eq!(rt; mem.byte(7), None);
    assert_eq!(rt; mem.next(0), None);
    mem.put(5, &[])?;
    assert_eq!(rt; mem.next(0), None);
    mem.put(6, &[1, 2, 3])?;
    mem.put(7, &[4])?;
    assert_eq!(rt; mem.byte(5), None);
    assert_eq!(rt; mem.byte(6), Some(1));
    assert_eq!(rt; mem.byte(7), Some(4));
    assert_eq!(rt; mem.byte(8), Some(3));
    assert_eq!(rt; mem.byte(9), None);
    Ok(())
}

#[test]
fn bytes_go_over_the_borders_of_pages(rt: HostRuntime) -> Result<(), Memory> {
    let mut mem = Mem::new(rt.alloc());
    mem.put(4094, &[1, 2, 3, 4])?;
    assert_eq!(rt; mem.byte(4093), None);
    assert_eq!(rt; mem.byte(4095), Some(2));
    assert_eq!(rt; mem.byte(4096), Some(3));
    assert_eq!(rt; mem.byte(4097), Some(4));
    assert_eq!(rt; mem.byte(4098), None);
    // three pages and a part of a fourth
    mem.put(12287, &vec![in rt.alloc(); 7; 12289]?)?;
    assert_eq!(rt; mem.next(4098), Some(12287));
    assert_eq!(rt; mem.byte(24575), Some(7));
    assert_eq!(rt; mem.byte(24576), None);
    Ok(())
}

#[test]
fn bytes_stand_up_to_the_last_address(rt: HostRuntime) -> Result<(), Memory> {
    let mut mem = Mem::new(rt.alloc());
    mem.put(u64::MAX, &[9])?;
    assert_eq!(rt; mem.byte(u64::MAX), Some(9));
    assert_eq!(rt; mem.byte(u64::MAX - 1), None);
    assert_eq!(rt; mem.next(u64::MAX), Some(u64::MAX));
    mem.put(u64::MAX - 4098, &vec![in rt.alloc(); 5; 4099]?)?;
    assert_eq!(rt; mem.byte(u64::MAX), Some(5));
    assert_eq!(rt; mem.byte(u64::MAX - 4096), Some(5));
    assert_eq!(rt; mem.next(0), Some(u64::MAX - 4098));
    Ok(())
}

#[test]
fn the_next_byte_is_found_over_gaps(rt: HostRuntime) -> Result<(), Memory> {
    let mut mem = Mem::new(rt.alloc());
    mem.put(10, &[1])?;
    mem.put(3 << 12, &[2])?;
    mem.put((7 << 12) + 4095, &[3])?;
    assert_eq!(rt; mem.next(0), Some(10));
    assert_eq!(rt; mem.next(10), Some(10));
    assert_eq!(rt; mem.next(11), Some(3 << 12));
    assert_eq!(rt; mem.next((3 << 12) + 1), Some((7 << 12) + 4095));
    assert_eq!(rt; mem.next(8 << 12), None);
    Ok(())
}

// With `rt try --test --fail-alloc N` the Nth allocation fails. Then the put that wanted it has changed nothing, though it may
// have made some of its pages, and it can be made again.
#[test]
fn a_put_that_wants_memory_changes_nothing(rt: HostRuntime) -> Result<(), Memory> {
    let mut mem = Mem::new(rt.alloc());
    let many = vec![in rt.alloc(); 7; 16384]?;
    mem.put(6, &[1])?;
    if mem.put(4090, &many).is_err() {
        assert_eq!(rt; mem.next(0), Some(6));
        assert_eq!(rt; mem.next(7), None);
        assert_eq!(rt; mem.byte(4096), None);
        mem.put(4090, &many)?;
    }
    assert_eq!(rt; mem.byte(4089), None);
    assert_eq!(rt; mem.next(7), Some(4090));
    assert_eq!(rt; mem.byte(20473), Some(7));
    assert_eq!(rt; mem.next(20474), None);
    Ok(())
}

// So with any N: once its page stands, no store of a word wants memory.
#[test]
fn a_word_is_stored_without_memory_where_its_page_stands(rt: HostRuntime) -> Result<(), Memory> {
    let mut mem = Mem::new(rt.alloc());
    mem.put(4095, &[1, 1])?;
    for k in 0..1000u64 {
        assert!(rt; mem.put(8 * k, &k.to_le_bytes()).is_ok());
    }
    assert_eq!(rt; mem.byte(7992), Some(231));
    Ok(())
}
