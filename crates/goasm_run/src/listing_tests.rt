//! Builds that the command `listing` shows or refuses. What is wanted was worked out from the language's rules and the
//! instructions' spellings.
use crate::test_runs::{NONE, expect, expect_reads, file};
use goasm_base::{Bytes, Name};
use std::alloc::{AllocError, Global};
use std::process::Abort;
use std::test::Fail;

// The list `p.list` and the files given here.
fn files_of(
    alloc: Global,
    list: &str,
    named: &[(&str, &str)],
) -> Result<Vec<(Name, Bytes)>, AllocError> {
    let mut files = Vec::new(alloc);
    files.push(file(alloc, b"p.list", list.as_bytes())?)?;
    for (name, text) in named {
        files.push(file(alloc, name.as_bytes(), text.as_bytes())?)?;
    }
    Ok(files)
}

// Lists the build of `p.list`, and tests that the text is printed, or the line written.
fn list_all<R: Abort>(
    rt: &R,
    alloc: Global,
    list: &str,
    named: &[(&str, &str)],
    want: Result<&str, &str>,
) -> Result<(), AllocError> {
    let want = match want {
        Ok(text) => (0, text.as_bytes(), b"".as_slice()),
        Err(line) => (1, b"".as_slice(), line.as_bytes()),
    };
    let what = match named.last() {
        Some((_, text)) => text,
        None => list,
    };
    let files = files_of(alloc, list, named)?;
    expect(
        rt,
        alloc,
        what,
        &[b"listing", b"amd64", b"p.list"],
        files,
        NONE,
        want,
    )
}

#[test]
fn functions_are_shown_with_their_places(rt: HostRuntime) -> Result<(), Fail> {
    let alloc = rt.alloc();
    for (source, text) in [
        (
            "#include \"textflag.h\"\nTEXT ·q(SB), NOSPLIT, $0-8\nPUSHQ AX\nMOVQ x+0(FP), CX\nPOPQ AX\nRET\n",
            "TEXT main.q\n0 0 3 PUSHQ AX\n1 8 4 MOVQ 16(SP), CX\n6 8 5 POPQ AX\n7 0 6 RET\n",
        ),
        (
            "#include \"textflag.h\"\nTEXT ·c(SB), NOSPLIT|NOFRAME, $0-0\nCALL ·d(SB)\nTEXT ·d(SB), NOSPLIT, $0-0\nRET\n",
            "TEXT main.c\n0 0 3 CALL 0x0000000000000000 ; main.d+0\n5 0 2 JMP 0x0000000000000005\nTEXT main.d\n0 0 5 RET\n",
        ),
        (
            "#include \"textflag.h\"\nTEXT ·p(SB), NOSPLIT, $8-0\nRET\n",
            "TEXT main.p\n0 0 2 SUBQ $16, SP\n4 16 2 MOVQ BP, 8(SP)\n9 16 2 LEAQ 8(SP), BP\n\
             14 16 3 MOVQ 8(SP), BP\n19 16 3 ADDQ $16, SP\n23 0 3 RET\n",
        ),
        ("", ""),
    ] {
        list_all(&rt, alloc, "asm m.s\n", &[("m.s", source)], Ok(text))?;
    }
    list_all(
        &rt,
        alloc,
        "define N 4\nasm a.s\nasm b.s\ninclude c.h\n",
        &[
            ("a.s", "#include \"c.h\"\nTEXT f(SB), N, $0-0\nADD8\n"),
            ("b.s", "#line 9 \"y.s\"\nTEXT g(SB), N, $0-0\nRET\n"),
            ("c.h", "#define ADD8 ADDQ $8, AX; RET\n"),
        ],
        Ok("TEXT f\n0 0 3 ADDQ $8, AX\n4 0 3 RET\nTEXT g\n0 0 10 RET\n"),
    )?;
    Ok(())
}

// A source that is refused in a layer of its own.
const OPEN: &str = "TEXT a(SB), 4, $0-0\n\"\n";

const NO_INCLUDE: &str = "TEXT a(SB), 4, $0-0\n\n#include \"c.h\"\n";

const NO_FORM: &str = "TEXT a(SB), 4, $0-0\n\n\nMOVQ AX,\n";

const NO_WORD: &str = "TEXT a(SB), 4, $0-0\n\n\nMOVQ R99, AX\n";

const LARGE: &str = "\n\n\n\nTEXT a(SB), 4, $1048576-0\nRET\n";

const NO_MNEMONIC: &str = "TEXT a(SB), 4, $0-0\n\n\n\n\nFLY AX\n";

const NO_REGISTER: &str = "TEXT a(SB), 4, $0-0\nMOVQ (EQ), AX\n";

const NO_OPERANDS: &str = "TEXT a(SB), 4, $0-0\nMOVQ AX, $1\n";

const NO_NUMBER: &str = "TEXT a(SB), 4, $0-0\nADDQ $2147483648, AX\n";

const FINE: &str = "TEXT a(SB), 4, $0-0\nRET\n";

#[test]
fn each_layer_refuses_at_its_place(rt: HostRuntime) -> Result<(), Fail> {
    for (source, line) in [
        (OPEN, "m.s:2: L2\n"),
        (NO_INCLUDE, "m.s:3: M1\n"),
        (NO_FORM, "m.s:4: P1\n"),
        (NO_WORD, "m.s:4: P3\n"),
        (LARGE, "m.s:5: RW1 1048584\n"),
        (NO_MNEMONIC, "m.s:6: S1\n"),
        (NO_REGISTER, "m.s:2: S2\n"),
        (NO_OPERANDS, "m.s:2: S3\n"),
        (NO_NUMBER, "m.s:2: S4\n"),
    ] {
        list_all(&rt, rt.alloc(), "asm m.s\n", &[("m.s", source)], Err(line))?;
    }
    list_all(
        &rt,
        rt.alloc(),
        "asm m.s\nstub m.go\n",
        &[("m.s", OPEN)],
        Err("p.list:2: Q1\n"),
    )?;
    Ok(())
}

#[test]
fn a_layer_is_judged_in_all_sources_before_the_next(rt: HostRuntime) -> Result<(), Fail> {
    for (first, second, line) in [
        (FINE, OPEN, "b.s:2: L2\n"),
        (NO_INCLUDE, OPEN, "b.s:2: L2\n"),
        (NO_FORM, NO_INCLUDE, "b.s:3: M1\n"),
        (NO_INCLUDE, NO_FORM, "a.s:3: M1\n"),
        (NO_MNEMONIC, NO_FORM, "b.s:4: P1\n"),
        (LARGE, NO_WORD, "b.s:4: P3\n"),
        (NO_WORD, NO_FORM, "a.s:4: P3\n"),
        (NO_MNEMONIC, LARGE, "a.s:6: S1\n"),
        (LARGE, NO_MNEMONIC, "a.s:5: RW1 1048584\n"),
        (FINE, NO_NUMBER, "b.s:2: S4\n"),
    ] {
        list_all(
            &rt,
            rt.alloc(),
            "asm a.s\nasm b.s\n",
            &[("a.s", first), ("b.s", second)],
            Err(line),
        )?;
    }
    Ok(())
}

#[test]
fn what_is_named_has_to_be_there(rt: HostRuntime) -> Result<(), Fail> {
    let alloc = rt.alloc();
    let list = "asm a.s\nasm b.s\nasm c.s\n";
    let named = [("a.s", OPEN), ("c.s", FINE)];
    let unread = (4, b"".as_slice(), b"goasm: cannot read b.s\n".as_slice());
    let words: [&[u8]; 3] = [b"listing", b"amd64", b"p.list"];
    expect(
        &rt,
        alloc,
        "an absent source",
        &words,
        files_of(alloc, list, &named)?,
        NONE,
        unread,
    )?;
    expect_reads(
        &rt,
        alloc,
        &words,
        files_of(alloc, list, &named)?,
        &[],
        (4, &[b"p.list", b"a.s", b"b.s"]),
    )?;
    let malformed = (2, b"".as_slice(), b"goasm: words\n".as_slice());
    for target in [b"arm64".as_slice(), b"AMD64", b"", b"p.list"] {
        let words: [&[u8]; 3] = [b"listing", target, b"p.list"];
        expect(
            &rt,
            alloc,
            "another target",
            &words,
            files_of(alloc, list, &named)?,
            NONE,
            malformed,
        )?;
    }
    expect(
        &rt,
        alloc,
        "a word too few",
        &[b"listing", b"p.list"],
        files_of(alloc, list, &named)?,
        NONE,
        malformed,
    )?;
    expect(
        &rt,
        alloc,
        "a word too many",
        &[b"listing", b"amd64", b"p.list", b"a.s"],
        files_of(alloc, list, &named)?,
        NONE,
        malformed,
    )?;
    Ok(())
}
