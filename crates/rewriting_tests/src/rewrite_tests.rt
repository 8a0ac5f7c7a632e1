//! The instructions of functions before they are placed. Lines of text are `DEPTH LINE STATEMENT INSTRUCTION`.
use crate::bodies::push_function;
use crate::units::{joined, unit_of};
use amd64_select::Amd64;
use goasm_base::Text;
use obj_rewrite::one_answer;
use std::alloc::Global;
use std::process::Abort;
use std::test::Fail;

// The functions of the file of number 7.
fn rewritten(alloc: Global, lines: &[&str]) -> Result<Text, Fail> {
    let unit = unit_of::<Amd64>(alloc, 7, lines)?;
    let mut text = Text::new(alloc);
    for func in unit.functions.as_slice() {
        push_function::<Amd64>(alloc, &mut text, unit.symbols.as_slice(), func)?;
    }
    Ok(text)
}

// Each source's functions become what stands behind it.
fn expect<R: Abort>(rt: &R, alloc: Global, rows: &[(&[&str], &[&str])]) -> Result<(), Fail> {
    for (source, wanted) in rows {
        let found = rewritten(alloc, *source)?.finish();
        let wanted = joined(alloc, *wanted)?.finish();
        assert_eq!(rt; found.as_slice(), wanted.as_slice(), "{source:?}");
    }
    Ok(())
}

const FRAMELESS: [(&[&str], &[&str]); 4] = [
    (
        &["TEXT f(SB), 4, $0-0", "RET"],
        &["frame 0 0 -", "0 2 0 RET"],
    ),
    // A NOSPLIT function needs no frame for its calls.
    (
        &["TEXT f(SB), 4, $0-0", "CALL g+8(SB)", "RET"],
        &[
            "frame 0 0 -",
            "0 2 0 CALL 0x0000000000000005 -> g+8",
            "0 3 1 RET",
        ],
    ),
    // One that makes no call needs none either, and no check.
    (
        &["TEXT f(SB), 0, $0-8", "NOP", "MOVQ x+0(FP), AX", "RET"],
        &["frame 0 0 -", "0 3 1 MOVQ 8(SP), AX", "0 4 2 RET"],
    ),
    // A NOFRAME function checks the stack for its calls.
    (
        &["TEXT f(SB), 512, $0-0", "", "CALL AX", "RET"],
        &[
            "frame 0 0 -",
            "0 1 - MOVQ (TLS), CX",
            "0 1 - CMPQ SP, 16(CX)",
            "0 1 - JLS 0x0000000000000006 -> block",
            "0 3 0 CALL AX",
            "0 4 1 RET",
            "0 1 - CALL 0x0000000000000005 -> grow",
            "0 1 - JMP 0x0000000000000005 -> entry",
        ],
    ),
];

const FRAMED: [(&[&str], &[&str]); 7] = [
    (
        &[
            "TEXT f(SB), 4, $8-16",
            "MOVQ x+0(FP), AX",
            "MOVQ AX, y-8(SP)",
            "RET",
        ],
        &[
            "frame 16 8 BP",
            "0 1 - SUBQ $16, SP",
            "16 1 - MOVQ BP, 8(SP)",
            "16 1 - LEAQ 8(SP), BP",
            "16 2 0 MOVQ 24(SP), AX",
            "16 3 1 MOVQ AX, (SP)",
            "16 4 2 MOVQ 8(SP), BP",
            "16 4 2 ADDQ $16, SP",
            "0 4 2 RET",
        ],
    ),
    // A call takes a frame without locals, and a check.
    (
        &["", "TEXT f(SB), 64, $0-0", "BL f(SB)", "RET"],
        &[
            "frame 8 0 BP",
            "0 2 - MOVQ (TLS), CX",
            "0 2 - CMPQ SP, 16(CX)",
            "0 2 - JLS 0x0000000000000006 -> block",
            "0 2 - SUBQ $8, SP",
            "8 2 - MOVQ BP, (SP)",
            "8 2 - LEAQ (SP), BP",
            "8 3 0 CALL 0x0000000000000005 -> f+0",
            "8 4 1 MOVQ (SP), BP",
            "8 4 1 ADDQ $8, SP",
            "0 4 1 RET",
            "0 2 - CALL 0x0000000000000005 -> grow",
            "0 2 - JMP 0x0000000000000005 -> entry",
        ],
    ),
    // A frame of 120 bytes is used without a check, and one of 128 bytes isn't.
    (
        &["TEXT f(SB), 0, $112-0", "RET"],
        &[
            "frame 120 112 BP",
            "0 1 - SUBQ $120, SP",
            "120 1 - MOVQ BP, 112(SP)",
            "120 1 - LEAQ 112(SP), BP",
            "120 2 0 MOVQ 112(SP), BP",
            "120 2 0 ADDQ $120, SP",
            "0 2 0 RET",
        ],
    ),
    (
        &["TEXT f(SB), 0, $120-0", "RET"],
        &[
            "frame 128 120 BP",
            "0 1 - MOVQ (TLS), CX",
            "0 1 - CMPQ SP, 16(CX)",
            "0 1 - JLS 0x0000000000000006 -> block",
            "0 1 - SUBQ $128, SP",
            "128 1 - MOVQ BP, 120(SP)",
            "128 1 - LEAQ 120(SP), BP",
            "128 2 0 MOVQ 120(SP), BP",
            "128 2 0 ADDQ $128, SP",
            "0 2 0 RET",
            "0 1 - CALL 0x0000000000000005 -> grow",
            "0 1 - JMP 0x0000000000000005 -> entry",
        ],
    ),
    (
        &["TEXT f(SB), 0, $128-0", "RET"],
        &[
            "frame 136 128 BP",
            "0 1 - MOVQ (TLS), CX",
            "0 1 - LEAQ -8(SP), AX",
            "0 1 - CMPQ AX, 16(CX)",
            "0 1 - JLS 0x0000000000000006 -> block",
            "0 1 - SUBQ $136, SP",
            "136 1 - MOVQ BP, 128(SP)",
            "136 1 - LEAQ 128(SP), BP",
            "136 2 0 MOVQ 128(SP), BP",
            "136 2 0 ADDQ $136, SP",
            "0 2 0 RET",
            "0 1 - CALL 0x0000000000000005 -> grow",
            "0 1 - JMP 0x0000000000000005 -> entry",
        ],
    ),
    (
        &["TEXT f(SB), 0, $4096-0", "RET"],
        &[
            "frame 4104 4096 BP",
            "0 1 - MOVQ (TLS), CX",
            "0 1 - MOVQ SP, AX",
            "0 1 - SUBQ $3976, AX",
            "0 1 - JCS 0x0000000000000006 -> block",
            "0 1 - CMPQ AX, 16(CX)",
            "0 1 - JLS 0x0000000000000006 -> block",
            "0 1 - SUBQ $4104, SP",
            "4104 1 - MOVQ BP, 4096(SP)",
            "4104 1 - LEAQ 4096(SP), BP",
            "4104 2 0 MOVQ 4096(SP), BP",
            "4104 2 0 ADDQ $4104, SP",
            "0 2 0 RET",
            "0 1 - CALL 0x0000000000000005 -> grow",
            "0 1 - JMP 0x0000000000000005 -> entry",
        ],
    ),
    // The largest frame.
    (
        &["TEXT f(SB), 4, $1048568-0", "UNDEF", "JMP f(SB)"],
        &[
            "frame 1048576 1048568 BP",
            "0 1 - SUBQ $1048576, SP",
            "1048576 1 - MOVQ BP, 1048568(SP)",
            "1048576 1 - LEAQ 1048568(SP), BP",
            "1048576 2 0 UNDEF",
            "1048576 3 1 JMP 0x0000000000000005 -> f+0",
        ],
    ),
];

const DEPTHS: [(&[&str], &[&str]); 6] = [
    // Places on the stack by the depth at each statement.
    (
        &[
            "TEXT f(SB), 4, $0-8",
            "PUSHQ AX",
            "MOVQ x+0(FP), BX",
            "POPQ AX",
            "MOVQ x+0(FP), BX",
            "RET",
        ],
        &[
            "frame 0 0 -",
            "0 2 0 PUSHQ AX",
            "8 3 1 MOVQ 16(SP), BX",
            "8 4 2 POPQ AX",
            "0 5 3 MOVQ 8(SP), BX",
            "0 6 4 RET",
        ],
    ),
    (
        &[
            "TEXT f(SB), 4, $0-8",
            "SUBQ $24, SP",
            "ADDQ $-8, SP",
            "ADJSP $-16",
            "ADJSP $8",
            "LEAQ x+0(FP), AX",
            "RET",
        ],
        &[
            "frame 0 0 -",
            "0 2 0 SUBQ $24, SP",
            "24 3 1 ADDQ $-8, SP",
            "32 4 2 ADDQ $16, SP",
            "16 5 3 SUBQ $8, SP",
            "24 6 4 LEAQ 32(SP), AX",
            "24 7 5 RET",
        ],
    ),
    // Behind a RET the depth is the one before what leaves the frame.
    (
        &[
            "TEXT f(SB), 4, $8-0",
            "RET",
            "PUSHQ AX",
            "RET",
            "MOVQ y-8(SP), AX",
            "JMP AX",
        ],
        &[
            "frame 16 8 BP",
            "0 1 - SUBQ $16, SP",
            "16 1 - MOVQ BP, 8(SP)",
            "16 1 - LEAQ 8(SP), BP",
            "16 2 0 MOVQ 8(SP), BP",
            "16 2 0 ADDQ $16, SP",
            "0 2 0 RET",
            "16 3 1 PUSHQ AX",
            "24 4 2 MOVQ 8(SP), BP",
            "24 4 2 ADDQ $16, SP",
            "8 4 2 RET",
            "24 5 3 MOVQ 8(SP), AX",
            "24 6 4 JMP AX",
        ],
    ),
    // Depths have bounds.
    (
        &[
            "TEXT f(SB), 4, $0-0",
            "POPQ BX",
            "PUSHQ AX",
            "ADDQ $64, SP",
            "CDQ",
            "RET",
        ],
        &[
            "frame 0 0 -",
            "0 2 0 POPQ BX",
            "0 3 1 PUSHQ AX",
            "8 4 2 ADDQ $64, SP",
            "0 5 3 CDQ",
            "0 6 4 RET",
        ],
    ),
    (
        &[
            "TEXT f(SB), 4, $0-0",
            "ADJSP $2147483647",
            "PUSHQ AX",
            "CDQ",
            "POPQ AX",
            "RET",
        ],
        &[
            "frame 0 0 -",
            "0 2 0 SUBQ $2147483647, SP",
            "2147483647 3 1 PUSHQ AX",
            "2147483647 4 2 CDQ",
            "2147483647 5 3 POPQ AX",
            "2147483639 6 4 RET",
        ],
    ),
    // Other moves of the stack pointer don't count.
    (
        &[
            "TEXT f(SB), 4, $0-0",
            "LEAQ -8(SP), SP",
            "ANDQ $-16, SP",
            "ADDQ AX, SP",
            "POPQ SP",
            "MOVQ AX, SP",
            "SUBL $8, SP",
            "RET",
        ],
        &[
            "frame 0 0 -",
            "0 2 0 LEAQ -8(SP), SP",
            "0 3 1 ANDQ $-16, SP",
            "0 4 2 ADDQ AX, SP",
            "0 5 3 POPQ SP",
            "0 6 4 MOVQ AX, SP",
            "0 7 5 SUBL $8, SP",
            "0 8 6 RET",
        ],
    ),
];

const ENDS: [(&[&str], &[&str]); 8] = [
    (
        &["TEXT f(SB), 4, $0-0"],
        &["frame 0 0 -", "0 1 0 JMP 0x0000000000000005 -> #0"],
    ),
    (
        &["TEXT f(SB), 4, $0-0", "RET", "NOP"],
        &[
            "frame 0 0 -",
            "0 2 0 RET",
            "0 1 2 JMP 0x0000000000000005 -> #2",
        ],
    ),
    (
        &[
            "TEXT f(SB), 4, $0-0",
            "RET",
            "PCDATA $0, $1",
            "FUNCDATA $0, s(SB)",
        ],
        &[
            "frame 0 0 -",
            "0 2 0 RET",
            "0 1 3 JMP 0x0000000000000005 -> #3",
        ],
    ),
    (
        &["TEXT f(SB), 4, $0-0", "a: UNDEF", "JEQ a"],
        &[
            "frame 0 0 -",
            "0 2 0 UNDEF",
            "0 3 1 JEQ 0x0000000000000006 -> #0",
            "0 1 2 JMP 0x0000000000000005 -> #2",
        ],
    ),
    (
        &["TEXT f(SB), 4, $0-0", "JMP 8(AX)"],
        &["frame 0 0 -", "0 2 0 JMP 8(AX)"],
    ),
    (
        &["TEXT f(SB), 4, $0-0", "B g(SB)"],
        &["frame 0 0 -", "0 2 0 JMP 0x0000000000000005 -> g+0"],
    ),
    // The jump to itself stands at the depth behind the statements, and before the block.
    (
        &["TEXT f(SB), 0, $0-0", "CALL f(SB)", "PUSHQ AX"],
        &[
            "frame 8 0 BP",
            "0 1 - MOVQ (TLS), CX",
            "0 1 - CMPQ SP, 16(CX)",
            "0 1 - JLS 0x0000000000000006 -> block",
            "0 1 - SUBQ $8, SP",
            "8 1 - MOVQ BP, (SP)",
            "8 1 - LEAQ (SP), BP",
            "8 2 0 CALL 0x0000000000000005 -> f+0",
            "8 3 1 PUSHQ AX",
            "16 1 2 JMP 0x0000000000000005 -> #2",
            "0 1 - CALL 0x0000000000000005 -> grow",
            "0 1 - JMP 0x0000000000000005 -> entry",
        ],
    ),
    // Each function has statements of its own.
    (
        &[
            "TEXT f(SB), 4, $0-0",
            "a: NOP",
            "CDQ",
            "JMP a",
            "TEXT g(SB), 4, $0-0",
            "CDQ",
            "a: CALL a",
            "JMP f(SB)",
        ],
        &[
            "frame 0 0 -",
            "0 3 1 CDQ",
            "0 4 2 JMP 0x0000000000000005 -> #0",
            "frame 0 0 -",
            "0 6 0 CDQ",
            "0 7 1 CALL 0x0000000000000005 -> #1",
            "0 8 2 JMP 0x0000000000000005 -> f+0",
        ],
    ),
];

#[test]
fn functions_become_instructions(rt: HostRuntime) -> Result<(), Fail> {
    one_answer::<Amd64>();
    expect(&rt, rt.alloc(), &FRAMELESS)?;
    expect(&rt, rt.alloc(), &FRAMED)?;
    expect(&rt, rt.alloc(), &DEPTHS)?;
    expect(&rt, rt.alloc(), &ENDS)
}

// The file and the line of the first refusal, and its code. A frame that is too large comes before all statements.
const REFUSED: [(&[&str], &[&str]); 17] = [
    (&["TEXT f(SB), 4, $1048576-0", "RET"], &["7:1 RW1 1048584"]),
    (
        &["TEXT f(SB), 0, $2147483640-0", "RET"],
        &["7:1 RW1 2147483648"],
    ),
    (
        &["", "", "TEXT f(SB), 4, $1048576-0", "FOO", "MOVQ (EQ), AX"],
        &["7:3 RW1 1048584"],
    ),
    (&["TEXT f(SB), 4, $0-0", "CDQ", "FOO", "RET"], &["7:3 S1"]),
    (&["TEXT f(SB), 4, $0-0", "NOP.P"], &["7:2 S1"]),
    (
        &["TEXT f(SB), 4, $0-0", "MOVQ (EQ), AX", "FOO"],
        &["7:2 S2"],
    ),
    (&["TEXT f(SB), 4, $0-0", "LOCK; RET"], &["7:2 S3"]),
    (
        &["TEXT f(SB), 4, $0-0", "MOVQ AX", "MOVQ (EQ), AX", "FOO"],
        &["7:2 S3"],
    ),
    (
        &["TEXT f(SB), 4, $0-0", "SHLQ $64, AX", "MOVQ AX", "FOO"],
        &["7:2 S4"],
    ),
    (
        &[
            "TEXT f(SB), 4, $0-0",
            "RET",
            "CDQ",
            "a:",
            "",
            "b: SHLQ $64, AX",
            "JMP a",
        ],
        &["7:6 S4"],
    ),
    (
        &["TEXT f(SB), 4, $0-0", "RET", "LOCK", "", "MOVQ AX, (BX)"],
        &["7:5 S3"],
    ),
    (
        &["TEXT f(SB), 512, $0-0", "", "BL (AX)", "CALL f(SB)", "RET"],
        &["7:3 S3"],
    ),
    // At the depth where the statement stands.
    (
        &[
            "TEXT f(SB), 4, $8-0",
            "LEAQ x+2147483623(FP), AX",
            "PUSHQ AX",
            "LEAQ x+2147483623(FP), AX",
            "RET",
        ],
        &["7:4 S4"],
    ),
    (
        &[
            "TEXT f(SB), 4, $8-0",
            "RET",
            "LEAQ x+2147483623(FP), AX",
            "LEAQ x+2147483624(FP), AX",
        ],
        &["7:4 S4"],
    ),
    (
        &[
            "TEXT f(SB), 4, $0-0",
            "LEAQ y-2147483648(SP), AX",
            "PUSHQ AX",
            "LEAQ y-2147483656(SP), AX",
            "POPQ AX",
            "LEAQ y-2147483656(SP), AX",
        ],
        &["7:6 S4"],
    ),
    // Each function is refused by itself.
    (
        &[
            "TEXT f(SB), 4, $0-0",
            "FOO",
            "TEXT g(SB), 4, $0-0",
            "RET",
            "TEXT h(SB), 4, $1048576-0",
            "FOO",
        ],
        &["7:2 S1", "frame 0 0 -", "0 4 0 RET", "7:5 RW1 1048584"],
    ),
    (
        &[
            "TEXT f(SB), 512, $0-0",
            "CALL end",
            "end: ADJSP $-2147483648",
        ],
        &["7:3 S4"],
    ),
];

#[test]
fn refusals_have_their_places(rt: HostRuntime) -> Result<(), Fail> {
    expect(&rt, rt.alloc(), &REFUSED)
}
