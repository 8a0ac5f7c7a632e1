//! What the parser makes of sources: operands, symbols and data.
use crate::parse_tests::parsed;
use goasm_base::Operand;
use std::alloc::Global;
use std::process::Abort;
use std::test::Fail;

// An operand as numbers: the place of its form in `Operand`, its first number, its second, and its one or two names.
fn described(operand: &Operand) -> (u32, i64, i64, &[u8], &[u8]) {
    match operand {
        Operand::Imm(value) => (0, value.cast_signed(), 0, b"", b""),
        Operand::Word(name) => (1, 0, 0, name.as_slice(), b""),
        Operand::Mem { off, base, index } => match index {
            None => (2, *off, 0, base.as_slice(), b""),
            Some((name, scale)) => {
                (2, *off, i64::from(*scale), base.as_slice(), name.as_slice())
            }
        },
        Operand::Sym { sym, off, address } => (
            3 + 10 * u32::from(*address),
            *off,
            i64::from(*sym),
            b"",
            b"",
        ),
        Operand::Arg { name, off, address } => (
            4 + 10 * u32::from(*address),
            *off,
            0,
            name.as_slice(),
            b"",
        ),
        Operand::Auto { off, address } => (5 + 10 * u32::from(*address), *off, 0, b"", b""),
        Operand::Label(statement) => (6, i64::from(*statement), 0, b"", b""),
        Operand::Pair(first, second) => (7, 0, 0, first.as_slice(), second.as_slice()),
        Operand::Shifted { reg, kind, amount } => {
            (8, i64::from(*kind), i64::from(*amount), reg.as_slice(), b"")
        }
    }
}

// Behind the operand, the form that it has to have.
type Row = (&'static str, (u32, i64, i64, &'static str, &'static str));

// Operands whose numbers are expressions.
const EXPRESSIONS: [Row; 21] = [
    ("$7", (0, 7, 0, "", "")),
    ("$1+2*3", (0, 7, 0, "", "")),
    ("$8-2-1", (0, 5, 0, "", "")),
    ("$(1+2)*3", (0, 9, 0, "", "")),
    ("$1|2<<2", (0, 9, 0, "", "")),
    ("$6^3&2", (0, 4, 0, "", "")),
    ("$64/4/2", (0, 8, 0, "", "")),
    ("$100%7*2", (0, 4, 0, "", "")),
    ("$1<<4>>1", (0, 8, 0, "", "")),
    ("$-1", (0, -1, 0, "", "")),
    ("$-~0", (0, 1, 0, "", "")),
    ("$+5", (0, 5, 0, "", "")),
    ("$0-1>>63", (0, 0, 0, "", "")),
    ("$-1>>63", (0, 1, 0, "", "")),
    ("$1<<64", (0, 0, 0, "", "")),
    ("$0x7fff", (0, 0x7FFF, 0, "", "")),
    ("$0xffffffffffffffff", (0, -1, 0, "", "")),
    ("4*(1+1)(AX)", (2, 8, 0, "AX", "")),
    ("x-8/2(SP)", (5, 0x7FFF_FFFF_FFFF_FFFC, 0, "", "")),
    ("2-1(PC)", (6, 1, 0, "", "")),
    ("R1->2+3", (8, 2, 5, "R1", "")),
];

// Each form of an operand as amd64 has it.
const AMD64: [Row; 27] = [
    ("$-8", (0, -8, 0, "", "")),
    ("AX", (1, 0, 0, "AX", "")),
    ("BX", (1, 0, 0, "BX", "")),
    ("X1", (1, 0, 0, "X1", "")),
    ("(AX)", (2, 0, 0, "AX", "")),
    ("-8(BX)", (2, -8, 0, "BX", "")),
    ("(TLS)", (2, 0, 0, "TLS", "")),
    ("16(SP)", (2, 16, 0, "SP", "")),
    ("8(AX)(CX*4)", (2, 8, 4, "AX", "CX")),
    ("(AX)(CX*0x8)", (2, 0, 8, "AX", "CX")),
    ("-1(BX)(AX*2)", (2, -1, 2, "BX", "AX")),
    ("(SP)(AX*1)", (2, 0, 1, "SP", "AX")),
    ("g(SB)", (3, 0, 1, "", "")),
    ("f+8(SB)", (3, 8, 0, "", "")),
    ("f<>+8(SB)", (3, 8, 1, "", "")),
    ("$g-4(SB)", (13, -4, 1, "", "")),
    ("$f<>+8(SB)", (13, 8, 1, "", "")),
    ("x+8(FP)", (4, 8, 0, "x", "")),
    ("x(FP)", (4, 0, 0, "x", "")),
    ("$x+0(FP)", (14, 0, 0, "x", "")),
    ("a·b+0(FP)", (4, 0, 0, "a.b", "")),
    ("tmp-8(SP)", (5, -8, 0, "", "")),
    ("$tmp-8(SP)", (15, -8, 0, "", "")),
    ("a", (6, 0, 0, "", "")),
    ("end", (6, 2, 0, "", "")),
    ("0(PC)", (6, 0, 0, "", "")),
    ("1(PC)", (6, 1, 0, "", "")),
];

// Each form as arm64 has it.
const ARM64: [Row; 25] = [
    ("$(3<<16)", (0, 0x3_0000, 0, "", "")),
    ("R1", (1, 0, 0, "R1", "")),
    ("ZR", (1, 0, 0, "ZR", "")),
    ("g", (1, 0, 0, "g", "")),
    ("EQ", (1, 0, 0, "EQ", "")),
    ("(R1)", (2, 0, 0, "R1", "")),
    ("-16(RSP)", (2, -16, 0, "RSP", "")),
    ("16(g)", (2, 16, 0, "g", "")),
    ("8(SP)", (2, 8, 0, "SP", "")),
    ("g(SB)", (3, 0, 1, "", "")),
    ("f<>-8(SB)", (3, -8, 1, "", "")),
    ("$f+8(SB)", (13, 8, 0, "", "")),
    ("$g<>(SB)", (13, 0, 1, "", "")),
    ("x+8(FP)", (4, 8, 0, "x", "")),
    ("$x-8(FP)", (14, -8, 0, "x", "")),
    ("t-16(SP)", (5, -16, 0, "", "")),
    ("$t(SP)", (15, 0, 0, "", "")),
    ("end", (6, 2, 0, "", "")),
    ("2(PC)", (6, 2, 0, "", "")),
    ("(R1, R2)", (7, 0, 0, "R1", "R2")),
    ("(R30, ZR)", (7, 0, 0, "R30", "ZR")),
    ("R1<<3", (8, 0, 3, "R1", "")),
    ("R2>>63", (8, 1, 63, "R2", "")),
    ("R30->255", (8, 2, 255, "R30", "")),
    ("ZR<<0", (8, 0, 0, "ZR", "")),
];

// Each form as riscv64 has it.
const RISCV64: [Row; 17] = [
    ("$-2048", (0, -2048, 0, "", "")),
    ("X5", (1, 0, 0, "X5", "")),
    ("A0", (1, 0, 0, "A0", "")),
    ("(T0)", (2, 0, 0, "T0", "")),
    ("2047(A0)", (2, 2047, 0, "A0", "")),
    ("-8(X5)", (2, -8, 0, "X5", "")),
    ("8(SP)", (2, 8, 0, "SP", "")),
    ("f(SB)", (3, 0, 0, "", "")),
    ("f<>(SB)", (3, 0, 1, "", "")),
    ("$f-8(SB)", (13, -8, 0, "", "")),
    ("$g<>+8(SB)", (13, 8, 1, "", "")),
    ("x+16(FP)", (4, 16, 0, "x", "")),
    ("$x+16(FP)", (14, 16, 0, "x", "")),
    ("t-8(SP)", (5, -8, 0, "", "")),
    ("$t-8(SP)", (15, -8, 0, "", "")),
    ("a", (6, 0, 0, "", "")),
    ("1(PC)", (6, 1, 0, "", "")),
];

// Tests that the first statement of a function has this operand. The labels are `a`, `BX` and `end`, before the first,
// the second and the third.
fn expect_operand<R: Abort>(rt: &R, alloc: Global, (operand, expected): Row) -> Result<(), Fail> {
    let mut source = Vec::new(alloc);
    source.extend_from_slice(b"TEXT f(SB), 4, $0-0\na: X ")?;
    source.extend_from_slice(operand.as_bytes())?;
    source.extend_from_slice(b"\nBX: Y\nend: LOCK\nZ\n")?;
    let unit = parsed(alloc, source.as_slice())??;
    match unit.functions.as_slice() {
        [function] => match function.stmts.as_slice() {
            [first, second, third] => {
                assert_eq!(rt; (first.lock, second.lock, third.lock), (false, false, true));
                match first.operands.as_slice() {
                    [operand] => assert!(rt; is_described(operand, expected)),
                    _ => assert!(rt; false),
                }
            }
            _ => assert!(rt; false),
        },
        _ => assert!(rt; false),
    }
    Ok(())
}

// Whether an operand is described so.
fn is_described(operand: &Operand, expected: (u32, i64, i64, &str, &str)) -> bool {
    let (form, first, second, name, other) = described(operand);
    (form, first, second) == (expected.0, expected.1, expected.2)
        && name == expected.3.as_bytes()
        && other == expected.4.as_bytes()
}

#[test]
fn expressions_have_their_values(rt: HostRuntime) -> Result<(), Fail> {
    for row in EXPRESSIONS {
        expect_operand(&rt, rt.alloc(), row)?;
    }
    Ok(())
}

#[test]
fn operands_of_amd64_have_their_forms(rt: HostRuntime) -> Result<(), Fail> {
    for row in AMD64 {
        expect_operand(&rt, rt.alloc(), row)?;
    }
    Ok(())
}

#[test]
fn operands_of_arm64_have_their_forms(rt: HostRuntime) -> Result<(), Fail> {
    for row in ARM64 {
        expect_operand(&rt, rt.alloc(), row)?;
    }
    Ok(())
}

#[test]
fn operands_of_riscv64_have_their_forms(rt: HostRuntime) -> Result<(), Fail> {
    for row in RISCV64 {
        expect_operand(&rt, rt.alloc(), row)?;
    }
    Ok(())
}

#[test]
fn a_unit_has_its_symbols_and_data(rt: HostRuntime) -> Result<(), Fail> {
    let unit = parsed(
        rt.alloc(),
        "TEXT ·f(SB), 4|512, $0-24\nMOVD.W main·f(SB), t<>(SB)\nDATA t<>+0(SB)/4, $0x123456789\nDATA t<>+4(SB)/2, $\"\\x41\\n\"\nDATA t<>+8(SB)/8, $·f+4(SB)\nGLOBL t<>(SB), 8|16, $2*8\nGLOBL u(SB), $4\nTEXT u∕v(SB), 0, $16-0\n".as_bytes(),
    )??;
    let names = unit.symbols.as_slice();
    assert_eq!(rt; names.len(), 4);
    assert_eq!(rt;
        (names[0].name.as_slice(), names[0].fixed),
        (b"main.f".as_slice(), false)
    );
    assert_eq!(rt;
        (names[1].name.as_slice(), names[1].fixed),
        (b"t".as_slice(), true)
    );
    assert_eq!(rt;
        (names[2].name.as_slice(), names[2].fixed),
        (b"u".as_slice(), false)
    );
    assert_eq!(rt;
        (names[3].name.as_slice(), names[3].fixed),
        (b"u/v".as_slice(), false)
    );
    match unit.values.as_slice() {
        [first, second, third] => {
            assert_eq!(rt; (first.sym, first.off, first.pos.line), (1, 0, 3));
            assert_eq!(rt; first.bytes.as_slice(), [0x89, 0x67, 0x45, 0x23].as_slice());
            assert_eq!(rt; second.bytes.as_slice(), b"A\n".as_slice());
            assert_eq!(rt; (third.off, third.address), (8, Some((0, 4))));
        }
        _ => assert!(rt; false),
    }
    match unit.globals.as_slice() {
        [first, second] => {
            assert_eq!(rt; (first.sym, first.flags, first.size), (1, 24, 16));
            assert_eq!(rt; (second.sym, second.flags, second.size), (2, 0, 4));
        }
        _ => assert!(rt; false),
    }
    match unit.functions.as_slice() {
        [first, second] => {
            assert_eq!(rt;
                (first.sym, first.flags, first.locals, first.args),
                (0, 516, 0, Some(24))
            );
            assert_eq!(rt;
                (second.sym, second.locals, second.args, second.pos.line),
                (3, 16, Some(0), 8)
            );
            match first.stmts.as_slice() {
                [only] => assert_eq!(rt; only.suffix, Some(b'W')),
                _ => assert!(rt; false),
            }
        }
        _ => assert!(rt; false),
    }
    Ok(())
}
