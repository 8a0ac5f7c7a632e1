//! What the parser refuses of sources as a user of Go's assembler writes them, and at which line.
use asm_lex::lex;
use asm_parse::{ParseNo, Unit, parse};
use std::alloc::Global;
use std::test::Fail;

// Some words of the three targets, in the order amd64, arm64, riscv64.
fn is_word(name: &[u8]) -> bool {
    matches!(name, b"AX" | b"BX" | b"CX" | b"TLS" | b"X1")
        || matches!(name, b"R1" | b"R2" | b"R30" | b"RSP" | b"ZR" | b"g" | b"EQ")
        || matches!(name, b"X5" | b"A0" | b"T0")
}

/// The unit of a source, or its refusal.
pub fn parsed(alloc: Global, source: &[u8]) -> Result<Result<Unit, ParseNo>, Fail> {
    let tokens = lex(alloc, 3, source)?;
    if tokens.list.as_slice().len() > 4_000_000 {
        return Ok(Err(ParseNo::Memory));
    }
    Ok(parse(alloc, &tokens, is_word))
}

// The number and the line of a refusal.
fn told(no: ParseNo) -> (u32, u32) {
    match no {
        ParseNo::P1(pos) => (1, pos.line),
        ParseNo::P2(pos) => (2, pos.line),
        ParseNo::P3(pos) => (3, pos.line),
        ParseNo::P4(pos) => (4, pos.line),
        ParseNo::P5(pos) => (5, pos.line),
        ParseNo::P6(pos) => (6, pos.line),
        ParseNo::P7(pos) => (7, pos.line),
        ParseNo::P8(pos) => (8, pos.line),
        ParseNo::P9(pos) => (9, pos.line),
        ParseNo::P10(pos) => (10, pos.line),
        ParseNo::Memory => (0, 0),
    }
}

// The refusal of a source, or zeros.
fn refused(alloc: Global, source: &[u8]) -> Result<(u32, u32), Fail> {
    match parsed(alloc, source)? {
        Ok(_) => Ok((0, 0)),
        Err(no) => Ok(told(no)),
    }
}

const NO_FORM: [(&str, (u32, u32)); 30] = [
    ("TEXT f(SB), 4, $0-0\nMOVQ AX,\n", (1, 2)),
    ("TEXT f(SB), 4, $0-0\n\nMOVQ 8(DX), AX\n", (1, 3)),
    ("TEXT f(SB), 4, $0-0\nMOVQ (AX)(BX*3), CX\n", (1, 2)),
    ("TEXT f(SB), 4, $0-0\nMOVQ $8(AX), CX\n", (1, 2)),
    ("TEXT f(SB), 4, $0-0\nRET\nend:\n", (1, 3)),
    ("TEXT f(SB), 4, $0-0\na: TEXT g(SB), 4, $0-0\n", (1, 2)),
    ("a: DATA x+0(SB)/8, $1\n", (1, 1)),
    ("TEXT f(SB), 4, $0-0\nLOCK\n", (1, 2)),
    ("TEXT f(SB), 4, $0-0\nLOCK\nLOCK\nRET\n", (1, 2)),
    ("TEXT f(SB), 4, $4-0\n", (1, 1)),
    ("TEXT f(SB), 516, $8-0\n", (1, 1)),
    ("TEXT f(SB), 4, $0x80000000-0\n", (1, 1)),
    ("TEXT f(SB), 4, $0-0x80000000\n", (1, 1)),
    ("TEXT f+0(SB), 4, $0-0\n", (1, 1)),
    ("TEXT f(SB), $0-0\n", (1, 1)),
    ("GLOBL x+0(SB), $8\n", (1, 1)),
    ("DATA x+0(SB)/3, $1\n", (1, 1)),
    ("DATA x+0(SB)/8, $\"1234567\"\n", (1, 1)),
    ("DATA x+0(SB)/4, $y(SB)\n", (1, 1)),
    ("DATA x+0x100000000(SB)/8, $1\n", (1, 1)),
    ("TEXT f(SB), 4, $0-0\nMOVD.WW AX, BX\n", (1, 2)),
    ("TEXT f(SB), 4, $0-0\n, AX\n", (1, 2)),
    ("TEXT f(SB), 4, $0-0\nMOVQ 1+, AX\n", (1, 2)),
    ("TEXT f(SB), 4, $0-0\nADD R1<<256, R2\n", (1, 2)),
    ("TEXT f(SB), 4, $0-0\nMOVQ x<>+0(FP), AX\n", (1, 2)),
    ("TEXT f(SB), 4, $0-0\nMOVQ (R1, DX), AX\n", (1, 2)),
    ("TEXT f(SB), 4, $0-0\nMOVQ 8(SB), AX\n", (1, 2)),
    ("TEXT f(SB), 4, $0-0\nMOVQ x(PC), AX\n", (1, 2)),
    ("TEXT f(SB), 4, $-8-0\n", (1, 1)),
    ("TEXT f(SB), 4, $0-0\nMOVQ \"a\", AX\n", (1, 2)),
];

#[test]
fn forms_are_refused(rt: HostRuntime) -> Result<(), Fail> {
    for (source, expected) in NO_FORM {
        assert_eq!(rt; refused(rt.alloc(), source.as_bytes())?, expected);
    }
    Ok(())
}

const REFUSED: [(&str, (u32, u32)); 46] = [
    ("TEXT f(SB), 4, $0-0\na: RET\na: RET\n", (2, 3)),
    ("TEXT f(SB), 4, $0-0\na: a: RET\n", (2, 2)),
    ("TEXT f(SB), 4, $0-0\na:\nb:\na:\nRET\n", (2, 4)),
    ("TEXT f(SB), 4, $0-0\na: LOCK; a: RET\n", (2, 2)),
    (
        "TEXT f(SB), 4, $0-0\na: RET\n\na: DATA x+0(SB)/8, $1\nRET\n",
        (2, 4),
    ),
    ("TEXT f(SB), 4, $0-0\nJMP a\n", (3, 2)),
    (
        "TEXT f(SB), 4, $0-0\na: RET\nTEXT g(SB), 4, $0-0\nJMP a\n",
        (3, 4),
    ),
    ("TEXT f(SB), 4, $0-0\nMOVQ DX, AX\n", (3, 2)),
    ("TEXT f(SB), 4, $0-0\nMOVQ AX, SP\n", (3, 2)),
    ("TEXT f(SB), 4, $0-0\nMOVQ 8(FP), AX\n", (4, 2)),
    ("TEXT f(SB), 4, $0-0\nMOVQ (FP), AX\n", (4, 2)),
    ("TEXT f(SB), 4, $0-0\nMOVQ $8(FP), AX\n", (4, 2)),
    ("TEXT f(SB), 4, $0-0\nRET\n\nLEAQ $(FP), AX\n", (4, 4)),
    ("TEXT f(SB), 4, $0-0\nMOVQ -8(FP), $1/0\n", (4, 2)),
    ("TEXT f(SB), 0, $0\n", (5, 1)),
    ("TEXT f(SB), 1|2, $8\nRET\n", (5, 1)),
    ("TEXT f(SB), 4, $0\nRET\nTEXT g(SB), 0, $0\n", (5, 3)),
    ("TEXT f<>(SB), 512, $0\n", (5, 1)),
    ("DATA x+8(SB)/8, $1\nDATA x+8(SB)/8, $1\n", (6, 2)),
    (
        "DATA x+8(SB)/8, $1\nDATA y+0(SB)/8, $1\nDATA x+0(SB)/8, $1\n",
        (6, 3),
    ),
    ("DATA x<>+8(SB)/8, $1\nDATA x<>+4(SB)/8, $1\n", (6, 2)),
    ("DATA ·x+8(SB)/8, $1\nDATA main·x+8(SB)/8, $1\n", (6, 2)),
    ("DATA x+8(SB)/8, $1\nDATA x+0(SB)/8, $1/0\n", (6, 2)),
    ("TEXT f(SB), 4, $0-0\nMOVQ $1/0, AX\n", (7, 2)),
    ("TEXT f(SB), 4, $0-0\nMOVQ $5%(1-1), AX\n", (7, 2)),
    ("DATA x+0(SB)/8, $2/0\n", (7, 1)),
    ("GLOBL x(SB), 1/0, $8\n", (7, 1)),
    ("TEXT f(SB), 4, $0-0\nJMP 1(PC)\n", (8, 2)),
    ("TEXT f(SB), 4, $0-0\nJMP -1(PC)\n", (8, 2)),
    (
        "TEXT f(SB), 4, $0-0\nJMP 1(PC)\nPCDATA $0, $1\nRET\n",
        (8, 2),
    ),
    ("TEXT f(SB), 4, $0-0\nJMP 2(PC)\nLOCK\nRET\n", (8, 2)),
    ("TEXT f(SB), 4, $0-0\nLOCK\nJMP 0(PC)\n", (8, 3)),
    ("TEXT f(SB), 4, $0-0\nPCDATA $0, 1(PC)\nRET\n", (8, 2)),
    (
        "TEXT f(SB), 4, $0-0\nRET\nFUNCDATA $0, g(SB)\nJMP -2(PC)\n",
        (8, 4),
    ),
    ("TEXT f(SB), 4, $0-0\nLOCK\nRET\nJMP -1(PC)\n", (8, 4)),
    ("TEXT f(SB), 4, $0-0\nJMP end·a\n", (3, 2)),
    (
        "TEXT f(SB), 4, $0-0\nMOVQ x, AX\nDATA x+0(SB)/8, $1\n",
        (3, 2),
    ),
    ("RET\n", (9, 1)),
    ("\nLOCK\nRET\n", (9, 2)),
    ("DATA x+0(SB)/8, $1\nMOVQ 8(FP), AX\n", (4, 2)),
    ("DATA x+0(SB)/8, $1\nBYTE $1\n", (9, 2)),
    ("TEXT f(SB), 4, $0-0\nBYTE $0x90\n", (10, 2)),
    ("TEXT f(SB), 4, $0-0\nRET\nWORD $1\n", (10, 3)),
    ("TEXT f(SB), 4, $0-0\nLONG $1, $2\n", (10, 2)),
    ("TEXT f(SB), 4, $0-0\nJMP b\nQUAD $1\n", (10, 3)),
    ("TEXT f(SB), 4, $0-0\nJMP 7(PC)\na: BYTE\n", (10, 3)),
];

// The refusal of a function with these statements, of which the first stands in line 2; or zeros.
fn refused_in_function(alloc: Global, body: &[u8]) -> Result<(u32, u32), Fail> {
    let mut source = Vec::new(alloc);
    source.extend_from_slice(b"TEXT f(SB), 4, $0-0\n")?;
    source.extend_from_slice(body)?;
    refused(alloc, source.as_slice())
}

// Two refusals in one statement: that with the lower number counts, but what names stand for comes last.
const IN_ONE_STATEMENT: [(&str, (u32, u32)); 38] = [
    ("b: b: X AX,\n", (1, 2)),
    ("X b, (AX\n", (1, 2)),
    ("X 8(FP), (AX\n", (1, 2)),
    ("X 8(FP), $1/0, (AX\n", (1, 2)),
    ("RET\nTEXT g(SB), 0, $4\n", (1, 3)),
    ("DATA x+8(SB)/8, $1\nDATA x+8(SB)/8, $1,\n", (1, 3)),
    ("X $1/0, (AX\n", (1, 2)),
    ("X 9(PC), (AX\n", (1, 2)),
    ("BYTE $1,\n", (1, 2)),
    ("a: RET\na: X AX,\n", (1, 3)),
    ("a: RET\na: X b\n", (2, 3)),
    ("a: RET\na: X 8(FP)\n", (2, 3)),
    (
        "a: DATA x+8(SB)/8, $1\na: DATA x+8(SB)/8, $1\nRET\n",
        (2, 3),
    ),
    ("a: RET\na: X $1/0\n", (2, 3)),
    ("a: RET\na: JMP 9(PC)\n", (2, 3)),
    ("a: RET\na: BYTE $1\n", (2, 3)),
    ("a: RET\na: BYTE $1/0\n", (2, 3)),
    ("X 9(PC), b\n", (3, 2)),
    ("X b, 9(PC)\n", (3, 2)),
    ("RET\nX b, c\n", (3, 3)),
    ("X 8(FP), b\n", (4, 2)),
    ("X b, 8(FP)\n", (4, 2)),
    ("X 8(FP), $1/0\n", (4, 2)),
    ("X 9(PC), $8(FP)\n", (4, 2)),
    ("BYTE 8(FP)\n", (4, 2)),
    ("TEXT g(SB), 1/0, $8\n", (5, 2)),
    ("RET\nTEXT g(SB), 8%0, $0\n", (5, 3)),
    ("DATA x+8(SB)/8, $1\nDATA x+8(SB)/8, $1/0\n", (6, 3)),
    ("DATA x+8(SB)/8, $1\n\nDATA x+1/0(SB)/8, $1\n", (6, 4)),
    ("X $1/0, b\n", (7, 2)),
    ("X b, $1%0\n", (7, 2)),
    ("X 9(PC), $1/0\n", (7, 2)),
    ("BYTE $1/0\n", (7, 2)),
    ("X 9(PC), -9(PC)\n", (8, 2)),
    ("RET\nX AX, 2(PC), 9(PC)\n", (8, 3)),
    ("BYTE b\n", (10, 2)),
    ("WORD 9(PC)\n", (10, 2)),
    ("RET\nLONG b, 9(PC)\n", (10, 3)),
];

// Two refusals in two statements: the earlier one counts, but what names stand for comes last.
const IN_TWO_STATEMENTS: [(&str, (u32, u32)); 34] = [
    ("X AX,\nX BX,\n", (1, 2)),
    ("X AX,\nb: b: RET\n", (1, 2)),
    ("RET\nX AX,\nBYTE $1\n", (1, 3)),
    ("a: a: RET\nX AX,\n", (2, 2)),
    ("a: a: RET\nX 8(FP)\n", (2, 2)),
    ("a: LOCK\nRET\na: LOCK\nX 8(FP)\n", (2, 4)),
    ("X b\nX c\n", (3, 2)),
    ("X b\nX 9(PC)\n", (3, 2)),
    ("RET\nX b\nRET\nX 9(PC)\n", (3, 3)),
    ("X 8(FP)\nX AX,\n", (4, 2)),
    ("X 8(FP)\na: a: RET\n", (4, 2)),
    ("RET\nX 8(FP)\nX $1/0\n", (4, 3)),
    ("TEXT g(SB), 0, $0\nX AX,\n", (5, 2)),
    ("TEXT g(SB), 0, $0\nX 8(FP)\n", (5, 2)),
    ("RET\nTEXT g(SB), 2%0|1, $0\nX AX,\n", (5, 3)),
    ("DATA x+8(SB)/8, $1\nDATA x+8(SB)/8, $1\nX AX,\n", (6, 3)),
    ("DATA x+8(SB)/8, $1\nDATA x+8(SB)/8, $1\nX 8(FP)\n", (6, 3)),
    ("DATA x+8(SB)/8, $1\nDATA x+8(SB)/8, $1\nX $1/0\n", (6, 3)),
    ("X $1/0\nX AX,\n", (7, 2)),
    ("X $1/0\nX 8(FP)\n", (7, 2)),
    ("RET\nX $1/0\nBYTE $1\n", (7, 3)),
    ("X 9(PC)\nX -9(PC)\n", (8, 2)),
    ("X 9(PC)\nX b\n", (8, 2)),
    ("RET\nJMP 9(PC); JMP b\n", (8, 3)),
    ("BYTE $1\nX AX,\n", (10, 2)),
    ("BYTE $1\na: a: RET\n", (10, 2)),
    ("RET\nWORD $1\nX $1/0\n", (10, 3)),
    ("a: RET\nTEXT g(SB), 4, $0-0\nJMP a\nJMP 9(PC)\n", (3, 4)),
    ("JMP 1(PC)\nTEXT g(SB), 4, $0-0\nJMP b\n", (8, 2)),
    ("RET\nTEXT g(SB), 4, $0-0\nJMP -1(PC)\nJMP b\n", (8, 4)),
    (
        "b: RET\nTEXT g(SB), 4, $0-0\nRET\nJMP b\nJMP -9(PC)\n",
        (3, 5),
    ),
    ("JMP b\nRET\nJMP 9(PC)\n", (3, 2)),
    ("a: RET\na: RET\na: BYTE $1\n", (2, 3)),
    ("LONG $1\nLONG $1/0\n", (10, 2)),
];

// What names stand for comes last, wherever the other refusal stands.
const NAMES_LAST: [(&str, (u32, u32)); 22] = [
    ("X b\nX AX,\n", (1, 3)),
    ("X b\n\na: a: RET\n", (2, 4)),
    ("X b\nX 8(FP)\n", (4, 3)),
    ("X b\nTEXT g(SB), 0, $0\n", (5, 3)),
    ("X b\nDATA x+8(SB)/8, $1\nDATA x+8(SB)/8, $1\n", (6, 4)),
    ("X b\nRET\nX $1/0\n", (7, 4)),
    ("X b\nBYTE $1\n", (10, 3)),
    ("X 9(PC)\nX AX,\n", (1, 3)),
    ("X 9(PC)\na: RET\na: RET\n", (2, 4)),
    ("X 9(PC)\nX b\nX 8(FP)\n", (4, 4)),
    ("X 9(PC)\nTEXT g(SB), 0, $0\n", (5, 3)),
    ("X 9(PC)\nDATA x+8(SB)/8, $1\nDATA x+8(SB)/8, $1\n", (6, 4)),
    ("X 9(PC)\nX $1/0\n", (7, 3)),
    ("X 9(PC)\nRET\nBYTE $1\n", (10, 4)),
    ("X AX,\nX b\n", (1, 2)),
    ("a: a: RET\nX 9(PC)\n", (2, 2)),
    ("X 8(FP)\nX b\n", (4, 2)),
    ("TEXT g(SB), 0, $0\nX 9(PC)\n", (5, 2)),
    ("DATA x+8(SB)/8, $1\nDATA x+8(SB)/8, $1\nX b\n", (6, 3)),
    ("X $1/0\nX 9(PC)\n", (7, 2)),
    ("BYTE $1\nX b\n", (10, 2)),
    ("JMP b\nBYTE b\n", (10, 3)),
];

// The same where code stands outside of a function.
const OUTSIDE: [(&str, (u32, u32)); 22] = [
    ("X AX,\n", (1, 1)),
    ("X 8(DX), AX\n", (1, 1)),
    ("BYTE $1,\n", (1, 1)),
    ("a: RET\n", (1, 1)),
    ("X 8(FP)\n", (4, 1)),
    ("BYTE 8(FP), $1/0\n", (4, 1)),
    ("X $1/0\n", (7, 1)),
    ("BYTE $1/0\n", (7, 1)),
    ("X b\n", (9, 1)),
    ("X 9(PC)\n", (9, 1)),
    ("\nX b, 9(PC)\n", (9, 2)),
    ("LONG $1\n", (9, 1)),
    ("RET\nX AX,\n", (9, 1)),
    ("RET\nX 8(FP)\n", (9, 1)),
    ("RET\nX $1/0\n", (9, 1)),
    ("RET; TEXT f(SB), 0, $0\n", (9, 1)),
    ("\nLOCK\nBYTE $1\n", (9, 2)),
    ("GLOBL x(SB), $8\nLOCK; BYTE $1\n", (9, 2)),
    ("RET\nTEXT f(SB), 4, $0-0\nX b\n", (9, 1)),
    ("DATA x+8(SB)/8, $1\nRET\nDATA x+8(SB)/8, $1\n", (9, 2)),
    ("DATA x+8(SB)/8, $1\nDATA x+8(SB)/8, $1\nRET\n", (6, 2)),
    ("TEXT f(SB), 1/0, $4\n", (1, 1)),
];

#[test]
fn the_first_refusal_counts(rt: HostRuntime) -> Result<(), Fail> {
    for (body, expected) in IN_ONE_STATEMENT {
        assert_eq!(rt;
            refused_in_function(rt.alloc(), body.as_bytes())?,
            expected,
            "{body}"
        );
    }
    for (body, expected) in IN_TWO_STATEMENTS {
        assert_eq!(rt;
            refused_in_function(rt.alloc(), body.as_bytes())?,
            expected,
            "{body}"
        );
    }
    Ok(())
}

#[test]
fn names_come_last(rt: HostRuntime) -> Result<(), Fail> {
    for (body, expected) in NAMES_LAST {
        assert_eq!(rt;
            refused_in_function(rt.alloc(), body.as_bytes())?,
            expected,
            "{body}"
        );
    }
    for (source, expected) in OUTSIDE {
        assert_eq!(rt;
            refused(rt.alloc(), source.as_bytes())?,
            expected,
            "{source}"
        );
    }
    Ok(())
}

#[test]
fn refusals_have_their_lines(rt: HostRuntime) -> Result<(), Fail> {
    for (source, expected) in REFUSED {
        assert_eq!(rt; refused(rt.alloc(), source.as_bytes())?, expected);
    }
    Ok(())
}
