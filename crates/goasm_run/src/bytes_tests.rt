//! Raw code that the command `bytes` prints.
use crate::test_runs::{Answer, Failing, NONE, expect, file};
use std::test::Fail;

// The first instructions of `vectors/amd64/listed.bin`. Their texts come from an independent reading of the instruction
// set, which agrees with two disassemblers.
const LISTED: [u8; 78] = [
    0x43, 0x0f, 0x95, 0x44, 0xa5, 0x08, 0x48, 0xc1, 0x05, 0x80, 0xff, 0xff, 0xff, 0x06, 0x43, 0x0f,
    0x9b, 0x44, 0x17, 0x08, 0x41, 0x31, 0xc1, 0x0f, 0x8d, 0x7d, 0x76, 0x03, 0xb4, 0x0f, 0x48, 0x41,
    0x7f, 0xe9, 0x00, 0x49, 0x74, 0xe4, 0xf3, 0x90, 0x47, 0x0f, 0x46, 0xa4, 0xf4, 0x80, 0x00, 0x00,
    0x00, 0x4c, 0x0f, 0x40, 0xce, 0x44, 0x0f, 0xb7, 0x2d, 0x08, 0x00, 0x00, 0x00, 0x64, 0x4c, 0x8b,
    0x0c, 0x25, 0xf8, 0xff, 0xff, 0xff, 0x41, 0x5f, 0x0f, 0x8c, 0x42, 0xc0, 0x86, 0x85,
];

const LISTED_TEXT: &str = "0 430f9544a508 SETNE 8(R13)(R12*4)\n\
6 48c10580ffffff06 ROLQ $6, 0xffffffffffffff8e(SB)\n\
14 430f9b441708 SETPC 8(R15)(R10*1)\n\
20 4131c1 XORL AX, R9\n\
23 0f8d7d7603b4 JGE 0xffffffffb403769a\n\
29 0f48417f CMOVLMI 127(CX), AX\n\
33 e9004974e4 JMP 0xffffffffe4744926\n\
38 f390 PAUSE\n\
40 470f46a4f480000000 CMOVLLS 128(R12)(R14*8), R12\n\
49 4c0f40ce CMOVQOS SI, R9\n\
53 440fb72d08000000 MOVWLZX 0x0000000000000045(SB), R13\n\
61 644c8b0c25f8ffffff MOVQ (TLS), R9\n\
70 415f POPQ R15\n\
72 0f8c42c08685 JLT 0xffffffff8586c090\n";

// The same of `vectors/amd64/mixed.bin`, in which bytes that begin no instruction stand between them.
const MIXED: [u8; 45] = [
    0x0f, 0x8d, 0x43, 0x00, 0x00, 0x00, 0x47, 0x0f, 0x42, 0x44, 0xc6, 0xff, 0x4c, 0x0f, 0x4f, 0xca,
    0x4c, 0x0f, 0xf0, 0x48, 0x83, 0x84, 0x24, 0x00, 0x00, 0x00, 0x80, 0x9a, 0x48, 0x0f, 0xbd, 0xe5,
    0x48, 0x0f, 0xb9, 0xe5, 0x4c, 0x0f, 0x4c, 0x6c, 0x24, 0xff, 0x49, 0xd3, 0x84,
];

const MIXED_TEXT: &str = "0 0f8d43000000 JGE 0x0000000000000049\n\
6 470f4244c6ff CMOVLCS -1(R14)(R8*8), R8\n\
12 4c0f4fca CMOVQGT DX, R9\n\
16 4c ?\n\
17 0f ?\n\
18 f048838424000000809a LOCK; ADDQ $-102, -2147483648(SP)\n\
28 480fbde5 BSRQ BP, SP\n\
32 48 ?\n\
33 0f ?\n\
34 b9e54c0f4c MOVL $1276071141, CX\n\
39 6c ?\n\
40 24 ?\n\
41 ff49d3 DECL -45(CX)\n\
44 84 ?\n";

#[test]
fn code_is_printed(rt: HostRuntime) -> Result<(), Fail> {
    for (code, want) in [
        (b"".as_slice(), ""),
        (b"\x48\x89\xc3", "0 4889c3 MOVQ AX, BX\n"),
        // The other opcode of a move between registers is never written.
        (b"\x48\x8b\xd8", "0 48 ?\n1 8b ?\n2 d8 ?\n"),
        (b"\xc3\x48\x89", "0 c3 RET\n1 48 ?\n2 89 ?\n"),
        (&LISTED, LISTED_TEXT),
        (&MIXED, MIXED_TEXT),
    ] {
        let mut files = Vec::new(rt.alloc());
        files.push(file(rt.alloc(), b"code", code)?)?;
        let answer = (0, want.as_bytes(), b"".as_slice());
        let words = [b"bytes".as_slice(), b"amd64", b"code"];
        expect(&rt, rt.alloc(), want, &words, files, NONE, answer)?;
    }
    Ok(())
}

const WORDS: Answer<'static> = (2, b"", b"goasm: words\n");

#[test]
fn words_and_devices_fail(rt: HostRuntime) -> Result<(), Fail> {
    let code = [b"bytes".as_slice(), b"amd64", b"code"];
    let read = Failing {
        reads: &[0],
        ..NONE
    };
    let short = Failing {
        out: &[(0, 7)],
        ..NONE
    };
    let shut = Failing {
        err: &[(0, 0)],
        ..NONE
    };
    for (list, failing, want) in [
        ([b"bytes".as_slice()].as_slice(), NONE, WORDS),
        (&[b"bytes", b"amd64"], NONE, WORDS),
        (&[b"bytes", b"code"], NONE, WORDS),
        (&[b"bytes", b"amd64", b"code", b"code"], NONE, WORDS),
        (&[b"bytes", b"arm64", b"code"], NONE, WORDS),
        (&[b"bytes", b"riscv64", b"code"], NONE, WORDS),
        (&[b"bytes", b"386", b"code"], NONE, WORDS),
        (&[b"bytes", b"AMD64", b"code"], NONE, WORDS),
        // The words are judged before any file is read.
        (&[b"bytes", b"arm64", b"absent"], NONE, WORDS),
        (
            &[b"bytes", b"amd64", b"absent"],
            NONE,
            (4, b"", b"goasm: cannot read absent\n"),
        ),
        (&code, read, (4, b"", b"goasm: cannot read code\n")),
        (&code, short, (5, b"0 4889c", b"")),
        (&code, shut, (0, b"0 4889c3 MOVQ AX, BX\n", b"")),
        (&[b"bytes", b"arm64", b"code"], shut, (5, b"", b"")),
    ] {
        let mut files = Vec::new(rt.alloc());
        files.push(file(rt.alloc(), b"code", b"\x48\x89\xc3")?)?;
        expect(
            &rt,
            rt.alloc(),
            "words or devices",
            list,
            files,
            failing,
            want,
        )?;
    }
    Ok(())
}

#[test]
fn code_that_is_too_long_is_named(rt: HostRuntime) -> Result<(), Fail> {
    let mut files = Vec::new(rt.alloc());
    let code = vec![in rt.alloc(); 0xc3; (16 << 20) + 1]?;
    files.push(file(rt.alloc(), b"code", &code)?)?;
    let want = (1, b"".as_slice(), b"code: too long\n".as_slice());
    let words = [b"bytes".as_slice(), b"amd64", b"code"];
    expect(&rt, rt.alloc(), "too long", &words, files, NONE, want)?;
    Ok(())
}
