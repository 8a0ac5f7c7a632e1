//! Builds of which the list and the order of files are what matters.
use super::{expand_all, expand_bytes};
use crate::test_runs::{Failing, NONE, expect, file};
use std::alloc::Global;
use std::process::Abort;
use std::test::Fail;

type Build<'a> = (&'a str, &'a [(&'a str, &'a str)], Result<&'a str, &'a str>);

// A list `e.list`, the files, and what is printed or the line of the refusal.
const BUILDS: &[Build<'static>] = &[
    // No files.
    ("", &[], Ok("")),
    ("\n# c\n\n   \n#", &[], Ok("")),
    ("# \0\n", &[], Ok("")),
    ("define A 1\noutside a 0x1000\nentry a", &[], Ok("")),
    (
        "outside main.x 4096\noutside main.y 0x3FFFFC\noutside z 010000",
        &[],
        Ok(""),
    ),
    ("entry runtime/internal/a.b", &[], Ok("")),
    // The order of the files.
    ("asm m.s", &[("m.s", "RET")], Ok("m.s:1 RET\n")),
    ("  asm   m.s  \n", &[("m.s", "RET")], Ok("m.s:1 RET\n")),
    ("asm m.s\r\n", &[("m.s\r", "RET")], Ok("m.s\r:1 RET\n")),
    (
        "asm b.s\nasm a.s\nasm b.s",
        &[("a.s", "A"), ("b.s", "\nB")],
        Ok("b.s:2 B\na.s:1 A\nb.s:2 B\n"),
    ),
    (
        "asm a.s\nasm b.s",
        &[("a.s", "#define A 1\n#undef D\nA"), ("b.s", "A D")],
        Ok("a.s:3 1\nb.s:1 A D\n"),
    ),
    (
        "asm a.s\nasm b.s\ndefine D 1",
        &[("a.s", "#undef D\nD"), ("b.s", "D")],
        Ok("a.s:2 D\nb.s:1 1\n"),
    ),
    (
        "asm a.s\nasm b.s",
        &[
            ("a.s", "#line 5 \"y\"\nA"),
            ("b.s", "B\n#line 6 \"z\"\nC\n#line 7 \"y\"\nD"),
        ],
        Ok("y:5 A\nb.s:1 B\nz:6 C\ny:7 D\n"),
    ),
    (
        "include t.h\nasm a.s\ninclude u.h",
        &[
            ("a.s", "#include \"u.h\"\nA"),
            ("t.h", "T"),
            ("u.h", "U\n#include \"t.h\""),
        ],
        Ok("u.h:1 U\nt.h:1 T\na.s:2 A\n"),
    ),
    (
        "asm a.s\ninclude textflag.h",
        &[
            ("a.s", "#include \"textflag.h\"\nNOSPLIT DUPOK"),
            ("textflag.h", "#define NOSPLIT 7"),
        ],
        Ok("a.s:2 7 DUPOK\n"),
    ),
    (
        "asm a.s\ninclude textflag.h",
        &[
            ("a.s", "#include \"textflag.h\"\n#include \"textflag.h\""),
            ("textflag.h", "\n#define NOSPLIT 4"),
        ],
        Err("textflag.h:2: M6\n"),
    ),
    // The values of macros.
    (
        "define D A\ndefine A 7 // c\nasm m.s",
        &[("m.s", "D")],
        Ok("m.s:1 7\n"),
    ),
    (
        "define  D  a ;  b  \nasm m.s",
        &[("m.s", "x D y")],
        Ok("m.s:1 x a\nm.s:1 b y\n"),
    ),
    ("define D # x\nasm m.s", &[("m.s", "D")], Ok("m.s:1 # x\n")),
    (
        "define F(a) a\nasm m.s",
        &[("m.s", "F(a)")],
        Ok("m.s:1 F ( a )\n"),
    ),
    (
        "define F (a)\nasm m.s",
        &[("m.s", "F")],
        Ok("m.s:1 ( a )\n"),
    ),
    (
        "define 1 x\nasm m.s",
        &[("m.s", "1 RET")],
        Ok("m.s:1 1 RET\n"),
    ),
    ("define D 012", &[], Err("e.list:1: L3\n")),
    (
        "# c\n\ndefine D @\nasm m.s",
        &[("m.s", "@")],
        Err("e.list:3: L4\n"),
    ),
    ("\ndefine D /* x", &[], Err("e.list:2: L2\n")),
    ("define D \"a\n", &[], Err("e.list:1: L2\n")),
    ("define D a\\\n", &[], Err("e.list:1: L4\n")),
    ("define D 1\n\ndefine D 1", &[], Err("e.list:3: M6\n")),
    (
        "asm m.s\ndefine D 1\ndefine D 2",
        &[("m.s", "#foo")],
        Err("e.list:3: M6\n"),
    ),
    (
        "asm m.s\ndefine DUPOK 2",
        &[("m.s", "\n#include \"textflag.h\"")],
        Err("m.s:2: M6\n"),
    ),
    ("define A A\nasm m.s", &[("m.s", "\nA")], Err("m.s:2: M4\n")),
    // The first refusal in the order of files, tokens before macros.
    (
        "asm a.s\nasm b.s",
        &[("a.s", "#foo"), ("b.s", "\n@")],
        Err("b.s:2: L4\n"),
    ),
    (
        "asm a.s\nasm b.s",
        &[("a.s", "\n\n@"), ("b.s", "1a")],
        Err("a.s:3: L4\n"),
    ),
    (
        "asm a.s\nasm b.s",
        &[("a.s", "\n#foo"), ("b.s", "#include \"x\"")],
        Err("a.s:2: M5\n"),
    ),
    (
        "asm a.s\nasm b.s",
        &[("a.s", "\n#ifdef A"), ("b.s", "#include \"x\"")],
        Err("a.s:2: M5\n"),
    ),
    (
        "include b.h\nasm a.s",
        &[("a.s", "1a"), ("b.h", "\n@")],
        Err("b.h:2: L4\n"),
    ),
    (
        "include b.h\ndefine D 1a\nasm a.s",
        &[("a.s", "@"), ("b.h", "#foo")],
        Err("e.list:2: L3\n"),
    ),
    (
        "asm a.s\ninclude b.h",
        &[("a.s", "RET"), ("b.h", "#foo\n#endif\n")],
        Ok("a.s:1 RET\n"),
    ),
    // Lines of no form; no file is read.
    ("asm absent\nfoo", &[], Err("e.list:2: Q1\n")),
    ("asm", &[], Err("e.list:1: Q1\n")),
    ("asm a b", &[], Err("e.list:1: Q1\n")),
    ("\nASM a", &[], Err("e.list:2: Q1\n")),
    ("\tasm a", &[], Err("e.list:1: Q1\n")),
    ("asm\ta", &[], Err("e.list:1: Q1\n")),
    (" # c", &[], Err("e.list:1: Q1\n")),
    ("\n\nasm \0", &[], Err("e.list:3: Q1\n")),
    ("\r\n", &[], Err("e.list:1: Q1\n")),
    ("\u{feff}asm a", &[], Err("e.list:1: Q1\n")),
    ("include", &[], Err("e.list:1: Q1\n")),
    ("stub a.go", &[], Err("e.list:1: Q1\n")),
    ("define", &[], Err("e.list:1: Q1\n")),
    ("define ", &[], Err("e.list:1: Q1\n")),
    ("entry", &[], Err("e.list:1: Q1\n")),
    ("entry ·a", &[], Err("e.list:1: Q1\n")),
    ("entry .a", &[], Err("e.list:1: Q1\n")),
    ("entry a b", &[], Err("e.list:1: Q1\n")),
    ("entry a\n\nentry a", &[], Err("e.list:3: Q1\n")),
    ("outside a", &[], Err("e.list:1: Q1\n")),
    ("outside a 0x1001", &[], Err("e.list:1: Q1\n")),
    ("outside a 0xFFC", &[], Err("e.list:1: Q1\n")),
    ("outside a 0x400000", &[], Err("e.list:1: Q1\n")),
    (
        "outside a 0x1000\noutside b 0x1000\noutside a 0x2000",
        &[],
        Err("e.list:3: Q1\n"),
    ),
    ("define D @\nfoo", &[], Err("e.list:2: Q1\n")),
];

/// Tests each build, and lists that are no text.
pub fn lists_are_read_or_refused<R: Abort>(rt: &R, alloc: Global) -> Result<(), Fail> {
    for (list, files, want) in BUILDS {
        expand_all(rt, alloc, list, files, *want)?;
    }
    for (list, line) in [
        (b"# \xff".as_slice(), "e.list:1: Q1\n"),
        (b"asm m.s\nasm \xff", "e.list:2: Q1\n"),
        (b"asm m.s\n\ndefine D \xe2\x88", "e.list:3: Q1\n"),
    ] {
        expand_bytes(rt, alloc, list, b"RET", Err(line))?;
    }
    Ok(())
}

const THREE: [(&str, &str); 4] = [
    ("e.list", "asm a.s\ninclude b.h\ndefine D @\nasm c.s\n"),
    ("a.s", "@"),
    ("b.h", ""),
    ("c.s", ""),
];

#[test]
fn devices_fail_in_the_middle(rt: HostRuntime) -> Result<(), Fail> {
    // The list has number 0, and the files that it names follow in its order. All are read before any is judged.
    for (reads, err, want) in [
        (
            [].as_slice(),
            [].as_slice(),
            (1, b"".as_slice(), b"a.s:1: L4\n".as_slice()),
        ),
        (&[0], &[], (4, b"", b"goasm: cannot read e.list\n")),
        (&[1], &[], (4, b"", b"goasm: cannot read a.s\n")),
        (&[2], &[], (4, b"", b"goasm: cannot read b.h\n")),
        (&[3], &[], (4, b"", b"goasm: cannot read c.s\n")),
        (&[4], &[], (1, b"", b"a.s:1: L4\n")),
        (&[], &[(0, 3)], (5, b"", b"a.s")),
        (&[2], &[(0, 9)], (5, b"", b"goasm: ca")),
    ] {
        let mut files = Vec::new(rt.alloc());
        for (name, text) in THREE {
            files.push(file(rt.alloc(), name.as_bytes(), text.as_bytes())?)?;
        }
        let failing = Failing { reads, err, ..NONE };
        let words = [b"expand".as_slice(), b"e.list"];
        expect(&rt, rt.alloc(), "devices", &words, files, failing, want)?;
    }
    Ok(())
}

#[test]
fn words_and_writes_fail(rt: HostRuntime) -> Result<(), Fail> {
    let words = (2, b"".as_slice(), b"goasm: words\n".as_slice());
    let line = b"d/e.list:2: Q1\n".as_slice();
    let text = b"a.s:1 RET\na.s:2 A B\n".as_slice();
    let short = Failing {
        out: &[(0, 13)],
        ..NONE
    };
    for (list, failing, want) in [
        ([b"expand".as_slice()].as_slice(), NONE, words),
        (&[b"expand", b"e.list", b"e.list"], NONE, words),
        (&[b"expan", b"e.list"], NONE, words),
        (
            &[b"expand", b""],
            NONE,
            (4, b"".as_slice(), b"goasm: cannot read \n".as_slice()),
        ),
        (
            &[b"expand", b"absent"],
            NONE,
            (4, b"", b"goasm: cannot read absent\n"),
        ),
        (&[b"expand", b"d/e.list"], NONE, (1, b"", line)),
        (&[b"expand", b"e.list"], NONE, (0, text, b"")),
        (&[b"expand", b"e.list"], short, (5, b"a.s:1 RET\na.s", b"")),
    ] {
        let mut files = Vec::new(rt.alloc());
        files.push(file(rt.alloc(), b"d/e.list", b"asm a.s\nasm")?)?;
        files.push(file(rt.alloc(), b"e.list", b"asm a.s")?)?;
        files.push(file(rt.alloc(), b"a.s", b"RET\nA B")?)?;
        expect(
            &rt,
            rt.alloc(),
            "words or writes",
            list,
            files,
            failing,
            want,
        )?;
    }
    Ok(())
}
