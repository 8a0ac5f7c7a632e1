use amd64_code::read;
use amd64_table::*;
use machine_effect::{Shape, SpMove, effect_flow};
use std::process::Abort;
use std::test::Fail;

const AX: Rm = Rm::Reg(Reg::Ax);

// Whether the instruction is listed.
fn expect_fits<R: Abort>(rt: &R, rows: &[(Instr, bool)]) {
    for (instr, listed) in rows {
        assert_eq!(rt; fits(instr), *listed, "{instr:?}");
    }
}

fn locked(lock: bool, to: Rm) -> Instr {
    let (op, width, from) = (Arithmetic::Add, Width::Q, Reg::Ax);
    Instr::ArithmeticReg {
        op,
        lock,
        width,
        from,
        to,
    }
}

fn quad(constant: i64) -> Instr {
    Instr::LoadQuad {
        constant,
        to: Reg::Ax,
    }
}

fn shift(width: Width, count: u8) -> Instr {
    Instr::ShiftConst {
        op: ShiftOp::Shl,
        width,
        count,
        rm: AX,
    }
}

fn indexed(index: Reg) -> Mem {
    Mem::Indexed {
        base: Reg::Ax,
        index,
        scale: Scale::One,
        disp: 0,
    }
}

#[test]
fn knows_what_is_listed(rt: HostRuntime) {
    let rows = [
        (Instr::default(), true),
        (
            Instr::Lea {
                from: indexed(Reg::Sp),
                to: Reg::Ax,
            },
            false,
        ),
        (
            Instr::Lea {
                from: indexed(Reg::Bp),
                to: Reg::Ax,
            },
            true,
        ),
        (locked(true, AX), false),
        (locked(true, Rm::Mem(indexed(Reg::Cx))), true),
        (quad(-1), true),
        (quad(0), false),
        (quad(0xffff_ffff), false),
        (quad(1 << 32), true),
        (shift(Width::L, 31), true),
        (shift(Width::L, 32), false),
        (shift(Width::Q, 63), true),
        (shift(Width::Q, 64), false),
    ];
    expect_fits(&rt, &rows);
}

#[test]
fn numbers_come_back(rt: HostRuntime) {
    for number in 0..16u8 {
        let reg = Reg::numbered(number);
        assert_eq!(rt; reg.number(), number);
        assert_eq!(rt; Reg::joined(reg.is_high(), reg.low()), reg);
        let xmm = Xmm::numbered(number);
        assert_eq!(rt; xmm.number(), number);
        assert_eq!(rt; Xmm::joined(xmm.is_high(), xmm.low()), xmm);
        assert_eq!(rt; Cc::numbered(number).number(), number);
    }
}

#[test]
fn tells_what_is_written(rt: HostRuntime) {
    let instr = locked(true, Rm::Mem(indexed(Reg::Cx)));
    assert_eq!(rt;
        mnemonic_of(&instr),
        Mnemonic::Arithmetic(Arithmetic::Add, Width::Q)
    );
    assert_eq!(rt; mnemonic_of(&instr).width(), Some(Width::Q));
    assert_eq!(rt;
        mnemonic_of(&Instr::SetCc {
            code: Cc::Zero,
            to: AX
        })
        .cc(),
        Some(Cc::Zero)
    );
    assert!(rt; is_locked(&instr));
    let (from, to) = operands_of(&instr);
    assert_eq!(rt; from, Some(Operand::Reg(Reg::Ax)));
    assert_eq!(rt; to, Some(Operand::Mem(indexed(Reg::Cx))));
    assert_eq!(rt; operands_of(&Instr::default()), (None, None));
}

// Bytes at an address, and their text there. The addresses are those that disassemblers read (GNU binutils 2.40, LLVM 14).
#[test]
fn shows_addresses(rt: HostRuntime) -> Result<(), Fail> {
    for (digits, at, text) in [
        (
            "4c892580000000",
            231,
            b"MOVQ R12, 0x000000000000016e(SB)".as_slice(),
        ),
        (
            "440fb72d08000000",
            53,
            b"MOVWLZX 0x0000000000000045(SB), R13",
        ),
        ("c605ffffffff61", 352, b"MOVB $97, 0x0000000000000166(SB)"),
        (
            "f3440f6f1580ffffff",
            2331,
            b"MOVOU 0x00000000000008a4(SB), X10",
        ),
        (
            "f048012508000000",
            194,
            b"LOCK; ADDQ SP, 0x00000000000000d2(SB)",
        ),
        (
            "f30fb80d01000000",
            671,
            b"POPCNTL 0x00000000000002a8(SB), CX",
        ),
        ("48c10580ffffff06", 6, b"ROLQ $6, 0xffffffffffffff8e(SB)"),
        ("4887057f000000", 4634, b"XCHGQ AX, 0x00000000000012a0(SB)"),
        (
            "488d0510000000",
            0xffff_ffff_ffff_fff0,
            b"LEAQ 0x0000000000000007(SB), AX",
        ),
        ("7aa0", 163, b"JPS 0x0000000000000045"),
        ("e9004974e4", 33, b"JMP 0xffffffffe4744926"),
        ("0f8400000100", 205, b"JEQ 0x00000000000100d3"),
    ] {
        let bytes = hex::decode(rt.alloc(), digits)?;
        match read(&bytes) {
            Some((instr, _)) => {
                let end = u64::wrapping_add(at, bytes.len() as u64);
                assert_eq!(rt; show(rt.alloc(), &instr, end)?.as_slice(), text, "{digits}");
            }
            None => assert!(rt; false, "{digits} is an instruction"),
        }
    }
    Ok(())
}

#[test]
fn moves_the_stack(rt: HostRuntime) -> Result<(), Fail> {
    for (digits, want) in [
        ("4883ec18", SpMove::By(-24)),
        ("4881ec00000080", SpMove::By(1 << 31)),
        ("4883c4f8", SpMove::By(-8)),
        ("83c408", SpMove::Other),
        ("4883cc00", SpMove::Other),
        ("54", SpMove::By(-8)),
        ("5d", SpMove::By(8)),
        ("5c", SpMove::Other),
        ("c3", SpMove::Keep),
    ] {
        match read(&hex::decode(rt.alloc(), digits)?) {
            Some((instr, _)) => {
                let flow = effect_flow(&effect(&instr, 0x40_0000), &Shape { sp: 4, link: None });
                assert_eq!(rt; flow.sp, want, "{digits}");
            }
            None => assert!(rt; false, "{digits} is an instruction"),
        }
    }
    Ok(())
}
