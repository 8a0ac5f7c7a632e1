//! Constants and offsets at their borders.
use crate::statements::{SITE, expect_at, selected};
use std::alloc::Global;
use std::process::Abort;
use std::test::Fail;

// The borders of numbers of 8, 16, 32 and 64 bits, with a sign and without, and what lies beside them; and those of the counts of shifts.
const NUMBERS: [i64; 50] = [
    -0x8000_0000_0000_0000,
    -0x7fff_ffff_ffff_ffff,
    -0x1_0000_0001,
    -0x1_0000_0000,
    -0xffff_ffff,
    -0x8000_0001,
    -0x8000_0000,
    -0x7fff_ffff,
    -0x1_0001,
    -0x1_0000,
    -0xffff,
    -0x8001,
    -0x8000,
    -0x7fff,
    -257,
    -256,
    -255,
    -129,
    -128,
    -127,
    -2,
    -1,
    1,
    2,
    30,
    31,
    32,
    62,
    63,
    64,
    126,
    127,
    128,
    254,
    255,
    256,
    0x7ffe,
    0x7fff,
    0x8000,
    0xfffe,
    0xffff,
    0x1_0000,
    0x7fff_fffe,
    0x7fff_ffff,
    0x8000_0000,
    0xffff_fffe,
    0xffff_ffff,
    0x1_0000_0000,
    0x7fff_ffff_ffff_fffe,
    0x7fff_ffff_ffff_ffff,
];

// What stands before and behind a number in statements that are instructions as they stand with numbers from the least to the
// greatest, and with no other.
const RANGES: [(&str, &str, i64, i64); 37] = [
    ("MOVQ $", ", (AX)", -0x8000_0000, 0x7fff_ffff),
    ("MOVL $", ", 8(R13)", -0x8000_0000, 0x7fff_ffff),
    ("MOVB $", ", (AX)(R9*2)", -128, 127),
    ("ADDQ $", ", AX", -0x8000_0000, 0x7fff_ffff),
    ("ADDL $", ", R8", -0x8000_0000, 0x7fff_ffff),
    ("ORQ $", ", SP", -0x8000_0000, 0x7fff_ffff),
    ("ADCL $", ", (AX)", -0x8000_0000, 0x7fff_ffff),
    ("SBBQ $", ", 8(BX)(CX*8)", -0x8000_0000, 0x7fff_ffff),
    ("ANDL $", ", AX", -0x8000_0000, 0x7fff_ffff),
    ("LOCK; SUBQ $", ", (R12)", -0x8000_0000, 0x7fff_ffff),
    ("XORQ $", ", R9", -0x8000_0000, 0x7fff_ffff),
    ("CMPQ AX, $", "", -0x8000_0000, 0x7fff_ffff),
    ("CMPL (AX), $", "", -0x8000_0000, 0x7fff_ffff),
    ("SHLL $", ", AX", 0, 31),
    ("SHRL $", ", (AX)", 0, 31),
    ("SARL $", ", R8", 0, 31),
    ("ROLL $", ", R8", 0, 31),
    ("SHLQ $", ", AX", 0, 63),
    ("SHRQ $", ", R8", 0, 63),
    ("SARQ $", ", (AX)", 0, 63),
    ("ROLQ $", ", AX", 0, 63),
    ("MOVQ ", "(AX), BX", -0x8000_0000, 0x7fff_ffff),
    ("MOVQ BX, ", "(SP)", -0x8000_0000, 0x7fff_ffff),
    ("MOVL ", "(R13)(R12*8), R9", -0x8000_0000, 0x7fff_ffff),
    ("MOVB $1, ", "(SI)", -0x8000_0000, 0x7fff_ffff),
    ("LEAQ ", "(AX)(BX*2), CX", -0x8000_0000, 0x7fff_ffff),
    ("XORL ", "(BP), AX", -0x8000_0000, 0x7fff_ffff),
    ("CMPQ ", "(R12), $5", -0x8000_0000, 0x7fff_ffff),
    ("SHLQ CX, ", "(AX)", -0x8000_0000, 0x7fff_ffff),
    ("NOTQ ", "(AX)(AX*1)", -0x8000_0000, 0x7fff_ffff),
    ("SETEQ ", "(AX)", -0x8000_0000, 0x7fff_ffff),
    ("CMOVQEQ ", "(AX), BX", -0x8000_0000, 0x7fff_ffff),
    ("LOCK; XADDQ AX, ", "(BX)", -0x8000_0000, 0x7fff_ffff),
    ("JMP ", "(AX)", -0x8000_0000, 0x7fff_ffff),
    ("CALL ", "(R8)(R9*4)", -0x8000_0000, 0x7fff_ffff),
    ("MOVOU ", "(AX), X0", -0x8000_0000, 0x7fff_ffff),
    ("MOVQ ", "(TLS), AX", 0, 0),
];

fn expect_number<R: Abort>(
    rt: &R,
    alloc: Global,
    statement: &str,
    listed: bool,
) -> Result<(), Fail> {
    let found = selected(alloc, statement, SITE)?.finish();
    let wanted = if listed { statement.as_bytes() } else { b"S4" };
    assert_eq!(rt; found.as_slice(), wanted, "{statement}");
    Ok(())
}

fn expect_range<R: Abort>(
    rt: &R,
    alloc: Global,
    range: (&str, &str, i64, i64),
) -> Result<(), Fail> {
    let (before, behind, least, greatest) = range;
    for number in NUMBERS {
        let statement = format!(in alloc; "{before}{number}{behind}")?;
        expect_number(rt, alloc, &statement, least <= number && number <= greatest)?;
    }
    Ok(())
}

#[test]
fn numbers_have_ranges(rt: HostRuntime) -> Result<(), Fail> {
    for range in RANGES {
        expect_range(&rt, rt.alloc(), range)?;
    }
    Ok(())
}

#[test]
fn moves_of_constants_have_borders(rt: HostRuntime) -> Result<(), Fail> {
    expect_at(
        &rt,
        rt.alloc(),
        SITE,
        &[
            ("MOVL $-9223372036854775808, AX", "S4"),
            ("MOVL $-4294967296, AX", "S4"),
            ("MOVL $-4294967295, AX", "S4"),
            ("MOVL $-2147483649, AX", "S4"),
            ("MOVL $-2147483648, AX", "MOVL $2147483648, AX"),
            ("MOVL $-2147483647, AX", "MOVL $2147483649, AX"),
            ("MOVL $-129, AX", "MOVL $4294967167, AX"),
            ("MOVL $-1, AX", "MOVL $4294967295, AX"),
            ("MOVL $0, AX", "MOVL $0, AX"),
            ("MOVL $128, AX", "MOVL $128, AX"),
            ("MOVL $2147483647, AX", "MOVL $2147483647, AX"),
            ("MOVL $2147483648, AX", "MOVL $2147483648, AX"),
            ("MOVL $4294967294, AX", "MOVL $4294967294, AX"),
            ("MOVL $4294967295, AX", "MOVL $4294967295, AX"),
            ("MOVL $4294967296, AX", "S4"),
            ("MOVL $9223372036854775807, AX", "S4"),
            (
                "MOVQ $-9223372036854775808, AX",
                "MOVQ $-9223372036854775808, AX",
            ),
            ("MOVQ $-2147483649, AX", "MOVQ $-2147483649, AX"),
            ("MOVQ $-2147483648, AX", "MOVQ $-2147483648, AX"),
            ("MOVQ $-1, AX", "MOVQ $-1, AX"),
            ("MOVQ $0, AX", "MOVL $0, AX"),
            ("MOVQ $2147483647, AX", "MOVL $2147483647, AX"),
            ("MOVQ $2147483648, AX", "MOVL $2147483648, AX"),
            ("MOVQ $4294967294, AX", "MOVL $4294967294, AX"),
            ("MOVQ $4294967295, AX", "MOVL $4294967295, AX"),
            ("MOVQ $4294967296, AX", "MOVQ $4294967296, AX"),
            ("MOVQ $4294967297, AX", "MOVQ $4294967297, AX"),
            (
                "MOVQ $9223372036854775807, AX",
                "MOVQ $9223372036854775807, AX",
            ),
            (
                "MOVQ $9223372036854775808, AX",
                "MOVQ $-9223372036854775808, AX",
            ),
            ("MOVQ $18446744071562067967, AX", "MOVQ $-2147483649, AX"),
            ("MOVQ $18446744071562067968, AX", "MOVQ $-2147483648, AX"),
            ("MOVQ $18446744073709551615, AX", "MOVQ $-1, AX"),
            // What MOVLQZX stands for isn't wrapped.
            ("MOVLQZX $-1, AX", "S4"),
            ("MOVLQZX $0, AX", "MOVL $0, AX"),
            ("MOVLQZX $4294967295, AX", "MOVL $4294967295, AX"),
            ("MOVLQZX $4294967296, AX", "S4"),
            ("MOVLQZX $2147483647, (AX)", "MOVL $2147483647, (AX)"),
            ("MOVLQZX $2147483648, (AX)", "S4"),
            ("ADJSP $-2147483648", "S4"),
            ("ADJSP $-2147483647", "ADDQ $2147483647, SP"),
            ("ADJSP $-129", "ADDQ $129, SP"),
            ("ADJSP $-1", "ADDQ $1, SP"),
            ("ADJSP $2147483647", "SUBQ $2147483647, SP"),
            ("ADJSP $2147483648", "S4"),
            ("ADJSP $-9223372036854775808", "S4"),
            ("ADJSP $9223372036854775807", "S4"),
            ("ADJSP $18446744073709551608", "ADDQ $8, SP"),
            ("ADDQ $18446744073709551615, AX", "ADDQ $-1, AX"),
            ("ADDQ $9223372036854775808, AX", "S4"),
            ("MOVB $255, (AX)", "S4"),
            ("MOVB $18446744073709551488, (AX)", "MOVB $-128, (AX)"),
        ],
    )
}

// Arguments lie above the return address, locals below the word for BP; both by what the stack pointer is below its value at the entry.
#[test]
fn places_on_the_stack_have_borders(rt: HostRuntime) -> Result<(), Fail> {
    expect_at(
        &rt,
        rt.alloc(),
        (16, 16),
        &[
            ("MOVQ x+0(FP), AX", "MOVQ 24(SP), AX"),
            ("MOVQ AX, x+8(FP)", "MOVQ AX, 32(SP)"),
            ("MOVQ x-24(FP), AX", "MOVQ (SP), AX"),
            ("MOVQ $x+8(FP), AX", "LEAQ 32(SP), AX"),
            ("LEAQ x-8(FP), BX", "LEAQ 16(SP), BX"),
            ("MOVQ y-8(SP), AX", "MOVQ (SP), AX"),
            ("MOVQ AX, y-0(SP)", "MOVQ AX, 8(SP)"),
            ("MOVQ $y-8(SP), AX", "LEAQ (SP), AX"),
            ("CALL y-16(SP)", "CALL -8(SP)"),
            ("MOVQ x+2147483622(FP), AX", "MOVQ 2147483646(SP), AX"),
            ("MOVQ x+2147483623(FP), AX", "MOVQ 2147483647(SP), AX"),
            ("MOVQ x+2147483624(FP), AX", "S4"),
            ("MOVQ x-2147483671(FP), AX", "MOVQ -2147483647(SP), AX"),
            ("MOVQ x-2147483672(FP), AX", "MOVQ -2147483648(SP), AX"),
            ("MOVQ x-2147483673(FP), AX", "S4"),
            ("MOVQ $x+2147483624(FP), AX", "S4"),
            ("MOVQ x+9223372036854775807(FP), AX", "S4"),
            ("MOVQ x-9223372036854775808(FP), AX", "S4"),
            ("MOVQ y+2147483639(SP), AX", "MOVQ 2147483647(SP), AX"),
            ("MOVQ y+2147483640(SP), AX", "S4"),
            ("MOVQ y-2147483656(SP), AX", "MOVQ -2147483648(SP), AX"),
            ("MOVQ y-2147483657(SP), AX", "S4"),
            ("MOVQ y+9223372036854775807(SP), AX", "S4"),
            ("MOVQ y-9223372036854775808(SP), AX", "S4"),
            // The stack pointer itself is a base as any other.
            ("MOVQ 8(SP), AX", "MOVQ 8(SP), AX"),
        ],
    )
}

#[test]
fn places_without_a_frame_have_borders(rt: HostRuntime) -> Result<(), Fail> {
    expect_at(
        &rt,
        rt.alloc(),
        (0, 0),
        &[
            ("MOVQ x+0(FP), AX", "MOVQ 8(SP), AX"),
            ("MOVQ x+2147483639(FP), AX", "MOVQ 2147483647(SP), AX"),
            ("MOVQ x+2147483640(FP), AX", "S4"),
            ("MOVQ x-2147483656(FP), AX", "MOVQ -2147483648(SP), AX"),
            ("MOVQ x-2147483657(FP), AX", "S4"),
            ("MOVQ y-8(SP), AX", "MOVQ -8(SP), AX"),
            ("MOVQ y+2147483647(SP), AX", "MOVQ 2147483647(SP), AX"),
            ("MOVQ y+2147483648(SP), AX", "S4"),
            ("MOVQ y-2147483648(SP), AX", "MOVQ -2147483648(SP), AX"),
            ("MOVQ y-2147483649(SP), AX", "S4"),
            ("RET", "RET"),
        ],
    )
}

// A frame of 8,192 bytes at the greatest depth that a number has.
#[test]
fn places_in_the_deep_have_borders(rt: HostRuntime) -> Result<(), Fail> {
    expect_at(
        &rt,
        rt.alloc(),
        (0xffff_ffff, 8192),
        &[
            ("MOVQ x+0(FP), AX", "S4"),
            ("MOVQ x-2147483656(FP), AX", "MOVQ 2147483647(SP), AX"),
            ("MOVQ x-2147483655(FP), AX", "S4"),
            ("MOVQ x-6442450951(FP), AX", "MOVQ -2147483648(SP), AX"),
            ("MOVQ x-6442450952(FP), AX", "S4"),
            ("MOVQ y-2147483640(SP), AX", "MOVQ 2147483647(SP), AX"),
            ("MOVQ y-2147483639(SP), AX", "S4"),
            ("RET", "MOVQ 8184(SP), BP; ADDQ $8192, SP; RET"),
        ],
    )
}
