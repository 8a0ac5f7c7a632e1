//! Statements that are instructions of the list as they stand: each name with each of its kinds of operands.
use crate::statements::{SITE, selected};
use std::alloc::Global;
use std::process::Abort;
use std::test::Fail;

// A name with operands becomes the instruction of this text alone.
fn expect_text<R: Abort>(rt: &R, alloc: Global, statement: &str, text: &str) -> Result<(), Fail> {
    let found = selected(alloc, statement, SITE)?.finish();
    assert_eq!(rt; found.as_slice(), text.as_bytes(), "{statement}");
    Ok(())
}

// The name with each of these operands becomes the instruction that it names.
fn expect_name<R: Abort>(rt: &R, alloc: Global, name: &str, operands: &[&str]) -> Result<(), Fail> {
    for operand in operands {
        let statement = format!(in alloc; "{name} {operand}")?;
        expect_text(rt, alloc, &statement, &statement)?;
    }
    Ok(())
}

// So does each of the names.
fn expect<R: Abort>(rt: &R, alloc: Global, names: &[&str], operands: &[&str]) -> Result<(), Fail> {
    for name in names {
        expect_name(rt, alloc, *name, operands)?;
    }
    Ok(())
}

const MOVE: [&str; 2] = ["MOVL", "MOVQ"];

const MOVED: [&str; 8] = [
    "AX, BX",
    "R8, SP",
    "BP, 8(SI)",
    "R15, -1(R13)(R12*8)",
    "(DI), CX",
    "127(R12)(AX*1), R9",
    "$-1, (AX)",
    "$2147483647, -129(BX)(BP*2)",
];

const EXTEND: [&str; 5] = ["MOVBLZX", "MOVWLZX", "MOVBQSX", "MOVWQSX", "MOVLQSX"];

const EXTENDED: [&str; 4] = [
    "AX, BX",
    "SI, R8",
    "(R12), DI",
    "-2147483648(BP)(R15*2), R9",
];

const LONG_CONSTANTS: [&str; 2] = ["$0, AX", "$4294967295, R15"];

const QUAD_CONSTANTS: [&str; 8] = [
    "$-1, AX",
    "$-2147483648, R9",
    "$-2147483649, SP",
    "$4294967296, R8",
    "$-9223372036854775808, BP",
    "$9223372036854775807, AX",
    "(TLS), CX",
    "(TLS), R14",
];

#[test]
fn moves_are_listed(rt: HostRuntime) -> Result<(), Fail> {
    let alloc = rt.alloc();
    expect(&rt, alloc, &MOVE, &MOVED)?;
    expect(&rt, alloc, &EXTEND, &EXTENDED)?;
    expect_name(
        &rt,
        alloc,
        "MOVB",
        &[
            "AX, (BX)",
            "SI, 128(R8)(R9*4)",
            "$-128, (AX)",
            "$127, 8(SP)",
        ],
    )?;
    expect_name(&rt, alloc, "MOVW", &["AX, (BX)", "R15, -128(R13)"])?;
    expect_name(&rt, alloc, "MOVL", &LONG_CONSTANTS)?;
    expect_name(&rt, alloc, "MOVQ", &QUAD_CONSTANTS)?;
    expect_name(
        &rt,
        alloc,
        "LEAQ",
        &["(AX), BX", "8(R12), R12", "-129(R13)(BX*8), SI"],
    )?;
    expect_name(
        &rt,
        alloc,
        "MOVOU",
        &["(AX), X0", "-8(R13)(R14*2), X15", "X6, 16(SP)", "X9, (R12)"],
    )?;
    expect_name(&rt, alloc, "PXOR", &["X0, X0", "X1, X15"])
}

const ARITHMETIC: [&str; 14] = [
    "ADDL", "ADDQ", "ORL", "ORQ", "ADCL", "ADCQ", "SBBL", "SBBQ", "ANDL", "ANDQ", "SUBL", "SUBQ",
    "XORL", "XORQ",
];

const COMBINED: [&str; 10] = [
    "BX, R9",
    "R8, SP",
    "DX, -8(BX)",
    "SP, (R8)(R9*4)",
    "(CX), SI",
    "2147483647(R12)(DI*1), R13",
    "$5, AX",
    "$-128, R8",
    "$-129, (BP)",
    "$2147483647, 8(AX)(BX*2)",
];

const LOCKED_ARITHMETIC: [&str; 14] = [
    "LOCK; ADDL",
    "LOCK; ADDQ",
    "LOCK; ORL",
    "LOCK; ORQ",
    "LOCK; ADCL",
    "LOCK; ADCQ",
    "LOCK; SBBL",
    "LOCK; SBBQ",
    "LOCK; ANDL",
    "LOCK; ANDQ",
    "LOCK; SUBL",
    "LOCK; SUBQ",
    "LOCK; XORL",
    "LOCK; XORQ",
];

const LOCKED: [&str; 3] = ["AX, (BX)", "$1, -1(R13)", "$-2147483648, 128(R8)(R12*2)"];

const COMPARED: [&str; 7] = [
    "AX, BX",
    "(AX), R9",
    "SP, (R8)(R9*4)",
    "CX, 8(BP)",
    "R10, $127",
    "(R12), $-129",
    "8(SP), $0",
];

#[test]
fn arithmetic_is_listed(rt: HostRuntime) -> Result<(), Fail> {
    let alloc = rt.alloc();
    expect(&rt, alloc, &ARITHMETIC, &COMBINED)?;
    expect(&rt, alloc, &LOCKED_ARITHMETIC, &LOCKED)?;
    expect(&rt, alloc, &["CMPL", "CMPQ"], &COMPARED)?;
    expect(
        &rt,
        alloc,
        &["TESTL", "TESTQ"],
        &["AX, AX", "R8, (BX)", "SI, -129(R13)(AX*1)"],
    )
}

const ONE: [&str; 16] = [
    "INCL", "INCQ", "DECL", "DECQ", "NOTL", "NOTQ", "NEGL", "NEGQ", "MULL", "MULQ", "DIVL", "DIVQ",
    "IDIVL", "IDIVQ", "JMP", "CALL",
];

const LOCKED_ONE: [&str; 8] = [
    "LOCK; INCL",
    "LOCK; INCQ",
    "LOCK; DECL",
    "LOCK; DECQ",
    "LOCK; NOTL",
    "LOCK; NOTQ",
    "LOCK; NEGL",
    "LOCK; NEGQ",
];

const INTO: [&str; 8] = [
    "IMULL", "IMULQ", "BSFL", "BSFQ", "BSRL", "BSRQ", "POPCNTL", "POPCNTQ",
];

const SHIFT: [&str; 8] = [
    "SHLL", "SHLQ", "SHRL", "SHRQ", "SARL", "SARQ", "ROLL", "ROLQ",
];

const SHIFTED: [&str; 5] = [
    "$0, AX",
    "$31, R9",
    "CX, BX",
    "$1, (R13)",
    "CX, 8(SP)(R14*4)",
];

const EXCHANGE: [&str; 10] = [
    "XCHGL",
    "XCHGQ",
    "CMPXCHGL",
    "CMPXCHGQ",
    "XADDL",
    "XADDQ",
    "LOCK; CMPXCHGL",
    "LOCK; CMPXCHGQ",
    "LOCK; XADDL",
    "LOCK; XADDQ",
];

#[test]
fn other_computation_is_listed(rt: HostRuntime) -> Result<(), Fail> {
    let alloc = rt.alloc();
    expect(&rt, alloc, &ONE, &["AX", "R15", "(SP)", "-8(R9)(CX*8)"])?;
    expect(&rt, alloc, &LOCKED_ONE, &["(BX)", "8(R12)"])?;
    expect(
        &rt,
        alloc,
        &INTO,
        &["AX, BX", "R8, R15", "(R12), CX", "-1(BP)(SI*4), SP"],
    )?;
    expect(&rt, alloc, &SHIFT, &SHIFTED)?;
    expect(
        &rt,
        alloc,
        &["SHLQ", "SHRQ", "SARQ", "ROLQ"],
        &["$32, AX", "$63, (BX)"],
    )?;
    expect(&rt, alloc, &EXCHANGE, &["AX, (BX)", "R15, -1(R13)(R12*8)"])?;
    expect(&rt, alloc, &["PUSHQ", "POPQ"], &["AX", "SP", "BP", "R15"])?;
    expect(&rt, alloc, &["BSWAPL", "BSWAPQ"], &["AX", "R12"])
}

const ALONE: [&str; 8] = [
    "CDQ", "CQO", "RDTSC", "CPUID", "SYSCALL", "PAUSE", "MFENCE", "UNDEF",
];

#[test]
fn names_alone_are_listed(rt: HostRuntime) -> Result<(), Fail> {
    for name in ALONE {
        expect_text(&rt, rt.alloc(), name, name)?;
    }
    Ok(())
}

// A condition as a source and as the list names it.
const CONDITIONS: [(&str, &str); 18] = [
    ("OS", "OS"),
    ("OC", "OC"),
    ("CS", "CS"),
    ("CC", "CC"),
    ("EQ", "EQ"),
    ("NE", "NE"),
    ("LS", "LS"),
    ("HI", "HI"),
    ("MI", "MI"),
    ("PL", "PL"),
    ("PS", "PS"),
    ("PC", "PC"),
    ("LT", "LT"),
    ("GE", "GE"),
    ("LE", "LE"),
    ("GT", "GT"),
    ("LO", "CS"),
    ("HS", "CC"),
];

// What stands before and behind a condition, in a statement and in the instruction that it becomes.
const CONDITIONAL: [(&str, &str, &str); 9] = [
    ("SET", " AX", " AX"),
    ("SET", " SI", " SI"),
    ("SET", " -8(R13)(AX*2)", " -8(R13)(AX*2)"),
    ("CMOVQ", " AX, BX", " AX, BX"),
    ("CMOVQ", " (R12), R9", " (R12), R9"),
    ("CMOVL", " R8, SP", " R8, SP"),
    ("CMOVL", " 8(SP)(BP*8), DX", " 8(SP)(BP*8), DX"),
    ("J", " end", " 0x0000000000000006 -> #2"),
    ("J", " s-8(SB)", " 0x0000000000000006 -> s+-8"),
];

fn expect_conditions<R: Abort>(
    rt: &R,
    alloc: Global,
    before: &str,
    written: &str,
    shown: &str,
) -> Result<(), Fail> {
    for (name, listed) in CONDITIONS {
        let statement = format!(in alloc; "{before}{name}{written}")?;
        let text = format!(in alloc; "{before}{listed}{shown}")?;
        expect_text(rt, alloc, &statement, &text)?;
    }
    Ok(())
}

#[test]
fn conditions_are_listed(rt: HostRuntime) -> Result<(), Fail> {
    for (before, written, shown) in CONDITIONAL {
        expect_conditions(&rt, rt.alloc(), before, written, shown)?;
    }
    Ok(())
}
