use amd64_code::{end_of, read, spell};
use amd64_table::{Instr, Plain, show};
use std::alloc::Global;
use std::process::Abort;
use std::test::Fail;

// Reads each row's bytes, spells what was read, and shows it at 0x400000. The bytes are those of GNU binutils 2.40, which
// agrees with LLVM 14; the texts have Go's names and order of operands.
fn expect<R: Abort>(rt: &R, alloc: Global, rows: &[(&str, &[u8])]) -> Result<(), Fail> {
    for (digits, text) in rows {
        let bytes = hex::decode(alloc, *digits)?;
        match read(&bytes) {
            Some((instr, len)) => {
                assert_eq!(rt; len, bytes.len(), "{digits}");
                assert_eq!(rt; spell(&instr).as_slice(), bytes.as_slice(), "{digits}");
                let end = end_of(&instr, 0x40_0000);
                assert_eq!(rt; show(alloc, &instr, end)?.as_slice(), *text, "{digits}");
            }
            None => assert!(rt; false, "{digits} is an instruction"),
        }
    }
    Ok(())
}

#[test]
fn moves(rt: HostRuntime) -> Result<(), Fail> {
    expect(
        &rt,
        rt.alloc(),
        &[
            ("4889c3", b"MOVQ AX, BX"),
            ("4c892580000000", b"MOVQ R12, 0x0000000000400087(SB)"),
            ("418b7440ff", b"MOVL -1(R8)(AX*2), SI"),
            ("880d00000080", b"MOVB CX, 0xffffffff80400006(SB)"),
            ("40887500", b"MOVB SI, (BP)"),
            ("66899f7fffffff", b"MOVW BX, -129(DI)"),
            ("450fb6f8", b"MOVBLZX R8, R15"),
            ("400fb6c6", b"MOVBLZX SI, AX"),
            ("0fb7c3", b"MOVWLZX BX, AX"),
            ("480fbe03", b"MOVBQSX (BX), AX"),
            ("490fbfc0", b"MOVWQSX R8, AX"),
            ("4c63e2", b"MOVLQSX DX, R12"),
            ("41be01000000", b"MOVL $1, R14"),
            ("b8ffffffff", b"MOVL $4294967295, AX"),
            ("48c7c19069ffff", b"MOVQ $-38512, CX"),
            ("48bfe17992e9c86ae1d0", b"MOVQ $-3395315232915949087, DI"),
            ("49bc0000000001000000", b"MOVQ $4294967296, R12"),
            ("41c70424f9ffffff", b"MOVL $-7, (R12)"),
            ("c682026bba181e", b"MOVB $30, 414870274(DX)"),
            ("480f4d748701", b"CMOVQGE 1(DI)(AX*4), SI"),
            ("f3430f6f74f1ff", b"MOVOU -1(R9)(R14*8), X6"),
            ("f3410f7f6d08", b"MOVOU X5, 8(R13)"),
            ("644c8b0425f8ffffff", b"MOVQ (TLS), R8"),
        ],
    )
}

#[test]
fn computation(rt: HostRuntime) -> Result<(), Fail> {
    expect(
        &rt,
        rt.alloc(),
        &[
            ("f04401607f", b"LOCK; ADDL R12, 127(AX)"),
            ("420b6422ff", b"ORL -1(DX)(R12*1), SP"),
            ("81d180000000", b"ADCL $128, CX"),
            ("f0834b8006", b"LOCK; ORL $6, -128(BX)"),
            ("48833cfb81", b"CMPQ (BX)(DI*8), $-127"),
            ("4881f97fffffff", b"CMPQ CX, $-129"),
            ("4c3944b808", b"CMPQ 8(AX)(DI*4), R8"),
            ("413b62ff", b"CMPL SP, -1(R10)"),
            ("4585f8", b"TESTL R15, R8"),
            ("f049f716", b"LOCK; NOTQ (R14)"),
            ("49ffc4", b"INCQ R12"),
            ("ffc8", b"DECL AX"),
            ("48f7d9", b"NEGQ CX"),
            ("f7e3", b"MULL BX"),
            ("49f7f0", b"DIVQ R8"),
            ("48f73b", b"IDIVQ (BX)"),
            ("480fafc3", b"IMULQ BX, AX"),
            ("440fbcc3", b"BSFL BX, R8"),
            ("480fbdc3", b"BSRQ BX, AX"),
            ("f34d0fb8ea", b"POPCNTQ R10, R13"),
            ("48c1ff34", b"SARQ $52, DI"),
            ("49d3c1", b"ROLQ CX, R9"),
            ("41876201", b"XCHGL SP, 1(R10)"),
            ("f00fb10b", b"LOCK; CMPXCHGL CX, (BX)"),
            ("420fc1648b01", b"XADDL SP, 1(BX)(R9*4)"),
            ("400f92c6", b"SETCS SI"),
            ("0f94c3", b"SETEQ BX"),
            ("490fc9", b"BSWAPQ R9"),
            ("66440fefca", b"PXOR X2, X9"),
        ],
    )
}

#[test]
fn control(rt: HostRuntime) -> Result<(), Fail> {
    expect(
        &rt,
        rt.alloc(),
        &[
            ("50", b"PUSHQ AX"),
            ("415f", b"POPQ R15"),
            ("ebfe", b"JMP 0x0000000000400000"),
            ("76fb", b"JLS 0x00000000003ffffd"),
            ("0f8c1c09ffff", b"JLT 0x00000000003f0922"),
            ("e9fbffffff", b"JMP 0x0000000000400000"),
            ("e81c000000", b"CALL 0x0000000000400021"),
            ("41ff545b08", b"CALL 8(R11)(BX*2)"),
            ("ffe0", b"JMP AX"),
            ("f390", b"PAUSE"),
            ("0faef0", b"MFENCE"),
            ("99", b"CDQ"),
            ("4899", b"CQO"),
            ("c3", b"RET"),
            ("0f05", b"SYSCALL"),
            ("0fa2", b"CPUID"),
            ("0f31", b"RDTSC"),
            ("0f0b", b"UNDEF"),
        ],
    )
}

#[test]
fn places_in_memory(rt: HostRuntime) -> Result<(), Fail> {
    expect(
        &rt,
        rt.alloc(),
        &[
            ("488d5d00", b"LEAQ (BP), BX"),
            ("488d1c24", b"LEAQ (SP), BX"),
            ("498d1c24", b"LEAQ (R12), BX"),
            ("498d5d00", b"LEAQ (R13), BX"),
            ("488d597f", b"LEAQ 127(CX), BX"),
            ("488d9980000000", b"LEAQ 128(CX), BX"),
            ("488d9c247fffffff", b"LEAQ -129(SP), BX"),
            ("4a8d1ce0", b"LEAQ (AX)(R12*8), BX"),
            ("488d5c0500", b"LEAQ (BP)(AX*1), BX"),
            ("488d1d80ffffff", b"LEAQ 0x00000000003fff87(SB), BX"),
        ],
    )
}

#[test]
fn other_bytes_are_not_read(rt: HostRuntime) -> Result<(), Fail> {
    for digits in [
        // The other opcodes of MOVQ AX, BX and of ADDQ AX, BX.
        "488bd8",
        "4803d8",
        // REX without need: before MOVL AX, BX, before SETEQ AX, and W before CALL AX.
        "4089c3",
        "400f94c0",
        "48ffd0",
        // REX left out: as a byte operand number 4 is the second byte of AX.
        "0f94c4",
        // LEAQ 8(AX), AX with four bytes, LEAQ (AX), AX with a displacement of 0, or with SIB without need.
        "488d8008000000",
        "488d4000",
        "488d0420",
        // LOCK before a register form, and before a move.
        "f04801c3",
        "f0488903",
        // ADDQ $8, AX with four bytes, and in the form for AX alone.
        "4881c008000000",
        "480508000000",
        // MOVQ $1, AX, which MOVL $1, AX does, in both forms.
        "48c7c001000000",
        "48b80100000000000000",
        // SHLL $32, AX, and SHLL $1, AX in the form for 1.
        "c1e020",
        "d1e0",
        // REX before the prefix of MOVW AX, (BX), and the register form.
        "40668903",
        "6689c3",
        // XCHGQ AX, BX, SETEQ AX with a digit, an absolute address, (TLS) with another offset.
        "4887c3",
        "0f94c8",
        "488b042510000000",
        "64488b0425f0ffffff",
        // LEAQ of a register, a store of a byte to one, MOVOU between registers.
        "488dc3",
        "c6c001",
        "f30f6fc1",
        // Cut off behind REX, 0F, ModRM and in a displacement; padding; nothing.
        "48",
        "0f",
        "4889",
        "e9fbffff",
        "488d80080000",
        "cc",
        "",
    ] {
        assert_eq!(rt; read(&hex::decode(rt.alloc(), digits)?), None, "{digits}");
    }
    Ok(())
}

#[test]
fn what_follows_does_not_matter(rt: HostRuntime) {
    let op = Plain::Ret;
    assert_eq!(rt; read(b"\xc3\xcc\xcc"), Some((Instr::Plain { op }, 1)));
    // An instruction at the last address ends at 0.
    assert_eq!(rt; end_of(&Instr::Plain { op }, u64::MAX), 0);
}
