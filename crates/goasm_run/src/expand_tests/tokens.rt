//! Sources of which tokens are what matters.
use super::{expand_all, expand_bytes};
use std::alloc::Global;
use std::process::Abort;
use std::test::Fail;

// The text of `m.s`, and what is printed or the line of the refusal.
const SOURCES: &[(&str, Result<&str, &str>)] = &[
    ("", Ok("")),
    ("\n \t\r\n", Ok("")),
    ("RET", Ok("m.s:1 RET\n")),
    ("RET;\n\n", Ok("m.s:1 RET\n")),
    ("a;b; c\n;;d", Ok("m.s:1 a\nm.s:1 b\nm.s:1 c\nm.s:2 d\n")),
    ("TEXT ·f(SB), $0-8", Ok("m.s:1 TEXT ·f ( SB ) , $ 0 - 8\n")),
    ("runtime∕a·f _a9· ∕b", Ok("m.s:1 runtime∕a·f _a9· ∕b\n")),
    ("a<<b>>c<>d->e", Ok("m.s:1 a << b >> c <> d -> e\n")),
    ("x-->y", Ok("m.s:1 x - -> y\n")),
    (
        "x#$+-*/%&|^~(),:.y",
        Ok("m.s:1 x # $ + - * / % & | ^ ~ ( ) , : . y\n"),
    ),
    (
        "x 0 10 0x0 0xFFFFFFFFFFFFFFFF",
        Ok("m.s:1 x 0 10 0x0 0xFFFFFFFFFFFFFFFF\n"),
    ),
    (
        "x 18446744073709551615",
        Ok("m.s:1 x 18446744073709551615\n"),
    ),
    ("x 1.5 -1", Ok("m.s:1 x 1 . 5 - 1\n")),
    (
        "x \"a\\\\\\\"\\n\\t\\x0aé// /*\"",
        Ok("m.s:1 x \"a\\\\\\\"\\n\\t\\x0aé// /*\"\n"),
    ),
    // Comments and white space.
    ("a // b ; c\nd", Ok("m.s:1 a\nm.s:2 d\n")),
    ("// /*\nx", Ok("m.s:2 x\n")),
    ("/* // */ x", Ok("m.s:1 x\n")),
    ("/*/ x */ y", Ok("m.s:1 y\n")),
    ("/*\n*/ a", Ok("m.s:2 a\n")),
    ("a /*\n */ b\nc", Ok("m.s:1 a b\nm.s:3 c\n")),
    ("a \\\n b\nc \\\n", Ok("m.s:1 a b\nm.s:3 c\n")),
    ("a\r\nb\rc\r\n", Ok("m.s:1 a\nm.s:2 b c\n")),
    // A text or a comment that isn't closed.
    ("x\n\"a\n\"", Err("m.s:2: L2\n")),
    ("x \"a\\\n\"", Err("m.s:1: L2\n")),
    ("x\n/* a\nb", Err("m.s:2: L2\n")),
    ("x /*/", Err("m.s:1: L2\n")),
    // Numbers and escapes.
    ("x\n18446744073709551616", Err("m.s:2: L3\n")),
    ("x 0x12345678901234567", Err("m.s:1: L3\n")),
    ("x 012", Err("m.s:1: L3\n")),
    ("x 00", Err("m.s:1: L3\n")),
    ("x 1a", Err("m.s:1: L3\n")),
    ("x 1·", Err("m.s:1: L3\n")),
    ("x 1_0", Err("m.s:1: L3\n")),
    ("x 0x", Err("m.s:1: L3\n")),
    ("x 0X1F", Err("m.s:1: L3\n")),
    ("x 0b1", Err("m.s:1: L3\n")),
    ("x \"\\q\"", Err("m.s:1: L3\n")),
    ("x \"\\101\"", Err("m.s:1: L3\n")),
    ("x \"\\x\"", Err("m.s:1: L3\n")),
    ("x \"\\x1\"", Err("m.s:1: L3\n")),
    // Characters that can't stand where they do.
    ("x\n@", Err("m.s:2: L4\n")),
    ("x = 1", Err("m.s:1: L4\n")),
    ("x 'a'", Err("m.s:1: L4\n")),
    ("x [0]", Err("m.s:1: L4\n")),
    ("x é", Err("m.s:1: L4\n")),
    ("x < y", Err("m.s:1: L4\n")),
    ("x <<> y", Err("m.s:1: L4\n")),
    ("x \u{b} y", Err("m.s:1: L4\n")),
    ("\u{feff}RET", Err("m.s:1: L4\n")),
    ("x\n// \0\n", Err("m.s:2: L4\n")),
    ("/*\n\0*/", Err("m.s:2: L4\n")),
    ("x \"\0\"", Err("m.s:1: L4\n")),
    ("x \\ y", Err("m.s:1: L4\n")),
    ("a\nb \\", Err("m.s:2: L4\n")),
    ("a \\\r\nb", Err("m.s:1: L4\n")),
    ("a \\ // x\nb", Err("m.s:1: L4\n")),
    // The first line at fault, and on it the lowest number.
    ("x @ 1a", Err("m.s:1: L3\n")),
    ("x @ \"\\q", Err("m.s:1: L2\n")),
    ("x @\n1a", Err("m.s:1: L4\n")),
    ("x 1a /* b\n", Err("m.s:1: L2\n")),
    ("x 1a\n/* b", Err("m.s:1: L3\n")),
    ("/* a\nb */ 1a /* c", Err("m.s:2: L2\n")),
    // Of tokens in a branch that isn't taken nothing is passed over.
    ("#ifdef A\n@\n#endif", Err("m.s:2: L4\n")),
];

// Bytes that aren't UTF-8, and the line of the refusal.
const NO_TEXTS: &[(&[u8], &str)] = &[
    (b"x\n\xff", "m.s:2: L1\n"),
    (b"x \0 1a \" \xff", "m.s:1: L1\n"),
    (b"x @\n\xff", "m.s:1: L4\n"),
    (b"x /* a\n\xff", "m.s:1: L2\n"),
    (b"/*\n\xff*/", "m.s:2: L1\n"),
    (b"/* \xff", "m.s:1: L1\n"),
    (b"x\n// \xff", "m.s:2: L1\n"),
    (b"x \"\xff\"", "m.s:1: L1\n"),
    (b"x\n\xe2\x88\n\x95", "m.s:2: L1\n"),
    (b"x \xe2\x88", "m.s:1: L1\n"),
    (b"x \xc0\x80", "m.s:1: L1\n"),
    (b"\n\n\xed\xa0\x80", "m.s:3: L1\n"),
];

/// Tests each source, and those that are no text.
pub fn tokens_are_printed_or_refused<R: Abort>(rt: &R, alloc: Global) -> Result<(), Fail> {
    for (source, want) in SOURCES {
        expand_all(rt, alloc, "asm m.s", &[("m.s", source)], *want)?;
    }
    for (source, line) in NO_TEXTS {
        expand_bytes(rt, alloc, b"asm m.s", source, Err(line))?;
    }
    Ok(())
}
