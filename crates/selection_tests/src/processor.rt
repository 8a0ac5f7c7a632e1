use amd64_select::{Amd64, Listed};
use amd64_table::{Arithmetic, Instr, Plain, Reg, Rm, Width};
use asm_target::{Processor, Target, first_instr, flow_at, one_listing, same};
use machine_effect::{Next, Shape, SpMove};
use std::alloc::Global;
use std::process::Abort;
use std::test::Fail;

// Reads, spells and shows an instruction at 0x400000 through the trait alone. The bytes are those of GNU binutils 2.40, the
// texts have Go's names and order of operands.
fn expect<T: Processor, R: Abort>(
    rt: &R,
    alloc: Global,
    digits: &str,
    text: &[u8],
) -> Result<(), Fail> {
    let bytes = hex::decode(alloc, digits)?;
    match first_instr::<T>(&bytes) {
        Some((instr, len)) => {
            assert_eq!(rt; len, bytes.len(), "{digits}");
            assert_eq!(rt; T::spell(&instr).as_slice(), bytes.as_slice(), "{digits}");
            let default = T::Instr::default();
            assert_eq!(rt; same::<T>(&instr, &default), digits == "f390", "{digits}");
            assert_eq!(rt;
                T::show(alloc, &instr, 0x40_0000)?.as_slice(),
                text,
                "{digits}"
            );
        }
        None => assert!(rt; false, "{digits} is an instruction"),
    }
    Ok(())
}

// What an instruction at 0x400000 does to the stack pointer, and where the machine goes on.
fn expect_flow<T: Processor, R: Abort>(
    rt: &R,
    alloc: Global,
    digits: &str,
    sp: SpMove,
    next: Next,
) -> Result<(), Fail> {
    match first_instr::<T>(&hex::decode(alloc, digits)?) {
        Some((instr, _)) => {
            let flow = flow_at::<T>(&instr, 0x40_0000);
            assert_eq!(rt; flow.sp, sp, "{digits}");
            assert_eq!(rt; flow.next, next, "{digits}");
            assert_eq!(rt; T::effect(&instr, 0x40_0000).next, next, "{digits}");
        }
        None => assert!(rt; false, "{digits} is an instruction"),
    }
    Ok(())
}

// Each target is a processor.
fn machine_of<T: Target>() -> u16 {
    T::MACHINE
}

#[test]
fn instructions_are_spelled_read_and_shown(rt: HostRuntime) -> Result<(), Fail> {
    one_listing::<Amd64>();
    assert_eq!(rt; machine_of::<Amd64>(), 62);
    assert_eq!(rt; Amd64::QUANTUM, 1);
    assert_eq!(rt; Amd64::SHAPE, Shape { sp: 4, link: None });
    assert_eq!(rt; Amd64::GROWTH, None);
    for (digits, text) in [
        ("4889c3", "MOVQ AX, BX"),
        ("f00fb10b", "LOCK; CMPXCHGL CX, (BX)"),
        ("4883ec10", "SUBQ $16, SP"),
        ("488d1d80ffffff", "LEAQ 0x00000000003fff87(SB), BX"),
        ("64488b0c25f8ffffff", "MOVQ (TLS), CX"),
        ("761d", "JLS 0x000000000040001f"),
        ("e81e000000", "CALL 0x0000000000400023"),
        ("f390", "PAUSE"),
    ] {
        expect::<Amd64, _>(&rt, rt.alloc(), digits, text.as_bytes())?;
    }
    Ok(())
}

#[test]
fn flow_is_that_of_the_effect(rt: HostRuntime) -> Result<(), Fail> {
    let goal = 0x40_0023;
    for (digits, sp, next) in [
        ("4889c3", SpMove::Keep, Next::Fall),
        ("4883ec10", SpMove::By(-16), Next::Fall),
        ("50", SpMove::By(-8), Next::Fall),
        ("488d642408", SpMove::Other, Next::Fall),
        ("ebfe", SpMove::Keep, Next::Jump(0x40_0000)),
        ("e91e000000", SpMove::Keep, Next::Jump(goal)),
        ("c3", SpMove::Keep, Next::Return),
    ] {
        expect_flow::<Amd64, _>(&rt, rt.alloc(), digits, sp, next)?;
    }
    let call = Next::Call { goal, link: None };
    expect_flow::<Amd64, _>(&rt, rt.alloc(), "e81e000000", SpMove::Keep, call)
}

#[test]
fn what_is_listed(rt: HostRuntime) {
    let op = Plain::Pause;
    assert_eq!(rt; *Listed::default().instr(), Instr::Plain { op });
    assert_eq!(rt;
        *Listed::known(Instr::Plain { op }).instr(),
        Instr::Plain { op }
    );
    // LOCK before a register, a constant that MOVL loads.
    for instr in [
        Instr::ArithmeticConst {
            op: Arithmetic::Sub,
            lock: true,
            width: Width::Q,
            constant: 16,
            to: Rm::Reg(Reg::Sp),
        },
        Instr::LoadQuad {
            constant: 1,
            to: Reg::Ax,
        },
    ] {
        assert!(rt; Listed::new(instr).is_none(), "{instr:?}");
    }
    assert!(rt; Listed::with_len(None).is_none());
}

#[test]
fn other_bytes_are_not_read(rt: HostRuntime) -> Result<(), Fail> {
    // A second spelling, LOCK before a move, a call cut off, padding, nothing.
    for digits in ["488bd8", "f0488903", "e81e0000", "cc", ""] {
        let bytes = hex::decode(rt.alloc(), digits)?;
        assert!(rt; first_instr::<Amd64>(&bytes).is_none(), "{digits}");
    }
    Ok(())
}
