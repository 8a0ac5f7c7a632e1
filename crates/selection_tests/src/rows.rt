//! Statements that become other instructions than their own text says. What they become was told by an independent reading of the
//! manual's forms and of the rows.
use crate::statements::expect;
use std::test::Fail;

#[test]
fn names_stand_for_others(rt: HostRuntime) -> Result<(), Fail> {
    expect(
        &rt,
        rt.alloc(),
        &[
            ("MOVBQZX 1(AX), CX", "MOVBLZX 1(AX), CX"),
            ("MOVBQZX SI, R8", "MOVBLZX SI, R8"),
            ("MOVWQZX AX, CX", "MOVWLZX AX, CX"),
            ("MOVWQZX (R12)(AX*2), CX", "MOVWLZX (R12)(AX*2), CX"),
            ("MOVLQZX AX, CX", "MOVL AX, CX"),
            ("MOVLQZX (AX), CX", "MOVL (AX), CX"),
            ("MOVLQZX AX, (BX)", "MOVL AX, (BX)"),
            ("MOVLQZX $5, AX", "MOVL $5, AX"),
            ("MOVLQZX $4294967295, AX", "MOVL $4294967295, AX"),
            ("JZ end", "JEQ 0x0000000000000006 -> #2"),
            ("JE end", "JEQ 0x0000000000000006 -> #2"),
            ("JNZ end", "JNE 0x0000000000000006 -> #2"),
            ("JC end", "JCS 0x0000000000000006 -> #2"),
            ("JB end", "JCS 0x0000000000000006 -> #2"),
            ("JNC end", "JCC 0x0000000000000006 -> #2"),
            ("JAE end", "JCC 0x0000000000000006 -> #2"),
            ("JA end", "JHI 0x0000000000000006 -> #2"),
            ("JBE end", "JLS 0x0000000000000006 -> #2"),
            ("JG end", "JGT 0x0000000000000006 -> #2"),
            ("JL end", "JLT 0x0000000000000006 -> #2"),
            ("JS end", "JMI 0x0000000000000006 -> #2"),
            ("JNS end", "JPL 0x0000000000000006 -> #2"),
        ],
    )
}

#[test]
fn jumps_and_calls_go_to_labels_and_symbols(rt: HostRuntime) -> Result<(), Fail> {
    expect(
        &rt,
        rt.alloc(),
        &[
            ("JMP end", "JMP 0x0000000000000005 -> #2"),
            ("JMP 0(PC)", "JMP 0x0000000000000005 -> #0"),
            ("B end", "JMP 0x0000000000000005 -> #2"),
            ("B f(SB)", "JMP 0x0000000000000005 -> f+0"),
            ("JMP s(SB)", "JMP 0x0000000000000005 -> s+0"),
            ("CALL end", "CALL 0x0000000000000005 -> #2"),
            ("CALL s+16(SB)", "CALL 0x0000000000000005 -> s+16"),
            ("BL 1(PC)", "CALL 0x0000000000000005 -> #1"),
            ("BL s-1(SB)", "CALL 0x0000000000000005 -> s+-1"),
            // Behind what leaves the frame.
            ("RET", "MOVQ 8(SP), BP; ADDQ $16, SP; RET"),
            // Offsets of symbols are of 64 bits.
            (
                "JMP s+9223372036854775807(SB)",
                "JMP 0x0000000000000005 -> s+9223372036854775807",
            ),
            (
                "JMP s-9223372036854775808(SB)",
                "JMP 0x0000000000000005 -> s+-9223372036854775808",
            ),
            (
                "JEQ s+4294967296(SB)",
                "JEQ 0x0000000000000006 -> s+4294967296",
            ),
        ],
    )
}

#[test]
fn symbols_are_memory(rt: HostRuntime) -> Result<(), Fail> {
    expect(
        &rt,
        rt.alloc(),
        &[
            ("MOVQ s(SB), AX", "MOVQ 0x0000000000000007(SB), AX -> s+0"),
            ("MOVL R9, f+8(SB)", "MOVL R9, 0x0000000000000007(SB) -> f+8"),
            (
                "MOVB $-1, s-129(SB)",
                "MOVB $-1, 0x0000000000000007(SB) -> s+-129",
            ),
            (
                "MOVW AX, s+2147483648(SB)",
                "MOVW AX, 0x0000000000000007(SB) -> s+2147483648",
            ),
            ("LEAQ s(SB), AX", "LEAQ 0x0000000000000007(SB), AX -> s+0"),
            ("MOVQ $s(SB), AX", "LEAQ 0x0000000000000007(SB), AX -> s+0"),
            (
                "MOVQ $s-9223372036854775808(SB), R8",
                "LEAQ 0x0000000000000007(SB), R8 -> s+-9223372036854775808",
            ),
            (
                "LOCK; XADDQ AX, s+1(SB)",
                "LOCK; XADDQ AX, 0x0000000000000009(SB) -> s+1",
            ),
            (
                "ADDQ $1000, s(SB)",
                "ADDQ $1000, 0x000000000000000b(SB) -> s+0",
            ),
            ("CMPQ s(SB), $1", "CMPQ 0x0000000000000008(SB), $1 -> s+0"),
            ("SETEQ f(SB)", "SETEQ 0x0000000000000007(SB) -> f+0"),
            ("MOVOU s(SB), X1", "MOVOU 0x0000000000000008(SB), X1 -> s+0"),
        ],
    )
}

#[test]
fn constants_choose_the_move(rt: HostRuntime) -> Result<(), Fail> {
    expect(
        &rt,
        rt.alloc(),
        &[
            ("MOVL $-1, AX", "MOVL $4294967295, AX"),
            ("MOVL $-2147483648, R8", "MOVL $2147483648, R8"),
            ("MOVL $0xffffffffffffffff, AX", "MOVL $4294967295, AX"),
            ("MOVQ $0, AX", "MOVL $0, AX"),
            ("MOVQ $7, SI", "MOVL $7, SI"),
            ("MOVQ $4294967295, R15", "MOVL $4294967295, R15"),
            (
                "MOVQ $0x8000000000000000, AX",
                "MOVQ $-9223372036854775808, AX",
            ),
            ("MOVQ $0xffffffffffffffff, AX", "MOVQ $-1, AX"),
            ("ADJSP $0", "SUBQ $0, SP"),
            ("ADJSP $8", "SUBQ $8, SP"),
            ("ADJSP $-8", "ADDQ $8, SP"),
            ("ADJSP $0xfffffffffffffff8", "ADDQ $8, SP"),
        ],
    )
}

#[test]
fn statements_become_none(rt: HostRuntime) -> Result<(), Fail> {
    expect(
        &rt,
        rt.alloc(),
        &[
            ("NOP", ""),
            ("NOP $1, AX, end, (EQ), Q", ""),
            ("PCDATA $0, $1", ""),
            ("PCDATA $0, (EQ)", ""),
            ("FUNCDATA $0, s(SB)", ""),
            ("FUNCDATA (AX, BX), $9223372036854775808", ""),
        ],
    )
}
