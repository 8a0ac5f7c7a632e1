use asm_target::{
    Few, Part, Picked, Processor, Refer, To, first_instr, flow_at, one_breach, one_listing,
    runs_append, runs_cut, same,
};
use asm_target_sample::{Instr, Register, Sample, count_moves, depth_after, read_all, spell_all};
use goasm_base::Memory;
use machine_effect::{Next, Shape, SpMove};
use std::alloc::Global;
use std::process::Abort;
use std::test::Fail;

const MOVE: Instr = Instr::Move {
    from: Register::Ax,
    to: Register::Bx,
};

// Spells, reads and shows an instruction at 0x400000, through the trait alone.
fn expect<T: Processor, R: Abort>(
    rt: &R,
    alloc: Global,
    instr: &T::Instr,
    bytes: &[u8],
    text: &[u8],
) -> Result<(), Memory> {
    assert_eq!(rt; T::spell(instr).as_slice(), bytes);
    assert_eq!(rt; T::show(alloc, instr, 0x40_0000)?.as_slice(), text);
    match T::read(bytes) {
        Some((found, len)) => {
            assert!(rt; same::<T>(&found, instr));
            assert_eq!(rt; len, bytes.len());
        }
        None => assert!(rt; false, "{bytes:?} is an instruction"),
    }
    Ok(())
}

#[test]
fn instructions_are_spelled_read_and_shown(rt: HostRuntime) -> Result<(), Memory> {
    for (instr, bytes, text) in [
        (Instr::Nop, b"\x90".as_slice(), b"NOP".as_slice()),
        (MOVE, b"\x48\x89\xc3".as_slice(), b"MOVQ AX, BX".as_slice()),
        (
            Instr::Push(Register::Di),
            b"\x57".as_slice(),
            b"PUSHQ DI".as_slice(),
        ),
        (
            Instr::AddSp(-24),
            b"\x48\x83\xc4\xe8".as_slice(),
            b"ADDQ $-24, SP".as_slice(),
        ),
        (
            Instr::Jump(-5),
            b"\xe9\xfb\xff\xff\xff".as_slice(),
            b"JMP 0x0000000000400000".as_slice(),
        ),
        (Instr::Return, b"\xc3".as_slice(), b"RET".as_slice()),
    ] {
        expect::<Sample, _>(&rt, rt.alloc(), &instr, bytes, text)?;
    }
    Ok(())
}

#[test]
fn other_bytes_are_not_read(rt: HostRuntime) {
    for bytes in [
        // The other opcode of MOVQ AX, BX, and a constant of four bytes where one does.
        b"\x48\x8b\xd8".as_slice(),
        b"\x48\x81\xc4\x08\x00\x00\x00".as_slice(),
        // A jump cut off, a move of memory, padding, nothing.
        b"\xe9\xfb\xff\xff".as_slice(),
        b"\x48\x89\x03".as_slice(),
        b"\xcc".as_slice(),
        b"".as_slice(),
    ] {
        assert_eq!(rt; first_instr::<Sample>(bytes), None, "{bytes:?}");
    }
    assert_eq!(rt; first_instr::<Sample>(b"\x48\x89\xc3\xcc"), Some((MOVE, 3)));
}

#[test]
fn flow_is_that_of_the_effect(rt: HostRuntime) {
    one_breach();
    one_listing::<Sample>();
    runs_cut();
    runs_append::<Sample>();
    assert_eq!(rt; Sample::MACHINE, 62);
    assert_eq!(rt; Sample::QUANTUM, 1);
    assert_eq!(rt; Sample::SHAPE, Shape { sp: 4, link: None });
    assert_eq!(rt; Sample::GROWTH, None);
    for (instr, sp, next) in [
        (Instr::Nop, SpMove::Keep, Next::Fall),
        (
            Instr::Move {
                from: Register::Bp,
                to: Register::Sp,
            },
            SpMove::Other,
            Next::Fall,
        ),
        (Instr::Push(Register::Ax), SpMove::By(-8), Next::Fall),
        (Instr::AddSp(-128), SpMove::By(-128), Next::Fall),
        (Instr::Jump(-6), SpMove::Keep, Next::Jump(u64::MAX)),
        (Instr::Return, SpMove::Keep, Next::Return),
    ] {
        let flow = flow_at::<Sample>(&instr, 0);
        assert_eq!(rt; flow.sp, sp, "{instr:?}");
        assert_eq!(rt; flow.next, next, "{instr:?}");
    }
    assert!(rt; !same::<Sample>(&Instr::AddSp(8), &Instr::AddSp(-8)));
    assert_eq!(rt;
        depth_after::<Sample>(16, &Instr::Push(Register::Ax), 0),
        Some(24)
    );
    assert_eq!(rt; depth_after::<Sample>(16, &Instr::AddSp(24), 0), Some(-8));
}

#[test]
fn a_run_is_read_and_spelled_again(rt: HostRuntime) -> Result<(), Fail> {
    // PUSHQ AX; MOVQ AX, BX; ADDQ $8, SP; JMP to itself; RET; and padding
    let bytes = b"\x50\x48\x89\xc3\x48\x83\xc4\x08\xe9\xfb\xff\xff\xff\xc3\xcc\xcc";
    let code = read_all::<Sample>(rt.alloc(), bytes)?;
    assert_eq!(rt; code.len(), 5);
    assert_eq!(rt; count_moves::<Sample>(&code, 0x40_0000), 2);
    let again = spell_all::<Sample>(rt.alloc(), &code)?;
    assert_eq!(rt;
        again.as_slice(),
        b"\x50\x48\x89\xc3\x48\x83\xc4\x08\xe9\xfb\xff\xff\xff\xc3".as_slice()
    );
    Ok(())
}

// Appends items through the type parameter alone, each made of its number, until the list is full.
fn filled<I: Copy + Default, F: Fn(u8) -> I>(make: F) -> Few<I>
    requires { F.IsAlwaysCallable make }
{
    let mut few = Few::new();
    for number in 0..20 {
        if few.len() < 14 {
            few.push(make(number));
        }
    }
    few
}

fn to_statement(number: u8) -> Picked<Instr> {
    Picked {
        instr: Instr::Push(Register::Di),
        refer: Some(Refer {
            to: To::Stmt(u32::from(number)),
            part: Part::Whole,
        }),
    }
}

#[test]
fn few_items_are_kept_in_order(rt: HostRuntime) {
    assert_eq!(rt; Few::<Picked<Instr>>::new().len(), 0);
    let few = filled(to_statement);
    assert_eq!(rt; few.len(), 14);
    for number in 0..14u8 {
        if usize::from(number) < few.len() {
            assert_eq!(rt; few.get(usize::from(number)), to_statement(number));
        }
    }
}
