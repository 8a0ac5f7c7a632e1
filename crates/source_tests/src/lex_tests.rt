use asm_lex::{Kind, LexNo, Token, lex};
use goasm_base::{Memory, Pos, Text};
use std::alloc::Global;
use std::test::Fail;

// Each source with its tokens: for each the line, a `+` where it is glued, the kind's letter with a number's value, and
// the text, which is shown as `NL` for a newline.
const SOURCES: [(&str, &str); 14] = [
    ("", "1E[NL]"),
    ("RET", "1W[RET]1+E[NL]"),
    ("A\r\n", "1W[A]1E[NL]2+E[NL]"),
    (" _a1 \tb;", "1W[_a1]1W[b]1+E[;]1+E[NL]"),
    ("·x∕y", "1W[·x∕y]1+E[NL]"),
    (
        "0 18446744073709551615 0xFf",
        "1N0[0]1N18446744073709551615[18446744073709551615]1N255[0xFf]1+E[NL]",
    ),
    (
        "\"\" \"a\\\\\\\"\\n\\t\\x0F·\"",
        "1T[\"\"]1T[\"a\\\\\\\"\\n\\t\\x0F·\"]1+E[NL]",
    ),
    ("<<>><>->->", "1S[<<]1+S[>>]1+S[<>]1+S[->]1+S[->]1+E[NL]"),
    (
        "#$+-*/%&|^~(),:.",
        "1S[#]1+S[$]1+S[+]1+S[-]1+S[*]1+S[/]1+S[%]1+S[&]1+S[|]1+S[^]1+S[~]1+S[(]1+S[)]1+S[,]1+S[:]1+S[.]1+E[NL]",
    ),
    (
        "x<>+8(SB)",
        "1W[x]1+S[<>]1+S[+]1+N8[8]1+S[(]1+W[SB]1+S[)]1+E[NL]",
    ),
    ("a\\\n\\\nb\nc", "1W[a]3W[b]3+E[NL]4+W[c]4+E[NL]"),
    ("a//b \"\nc", "1W[a]1E[NL]2+W[c]2+E[NL]"),
    ("a/*\n*/b/**/c/***/", "1W[a]2W[b]2W[c]2E[NL]"),
    ("1+/*;'\n\n*/\n", "1N1[1]1+S[+]3E[NL]4+E[NL]"),
];

fn show(text: &mut Text, token: &Token<'_>) -> Result<(), Memory> {
    text.push_unsigned(u64::from(token.pos.line))?;
    if token.glued {
        text.push(b"+")?;
    }
    match token.kind {
        Kind::Word => text.push(b"W")?,
        Kind::Number(value) => {
            text.push(b"N")?;
            text.push_unsigned(value)?;
        }
        Kind::Text => text.push(b"T")?,
        Kind::Sign => text.push(b"S")?,
        Kind::End => text.push(b"E")?,
    }
    text.push(b"[")?;
    match token.text.as_slice() {
        [b'\n'] => text.push(b"NL")?,
        bytes => text.push(bytes)?,
    }
    text.push(b"]")
}

fn shown(alloc: Global, source: &[u8]) -> Result<Text, Fail> {
    let mut text = Text::new(alloc);
    let tokens = lex(alloc, 5, source)?;
    for token in tokens.list.as_slice() {
        show(&mut text, token)?;
    }
    Ok(text)
}

#[test]
fn sources(rt: HostRuntime) -> Result<(), Fail> {
    for (source, expected) in SOURCES {
        let text = shown(rt.alloc(), source.as_bytes())?;
        assert_eq!(rt; text.finish().as_slice(), expected.as_bytes(), "{source}");
    }
    Ok(())
}

// The number of the refusal, and its line.
const REFUSED: [(&[u8], u8, u32); 26] = [
    (b"a\n\xff", 1, 2),
    (b"//\n/*\xc3*/", 1, 2),
    (b"' 08 \" \xff", 1, 1),
    (b"\xe2\x88\n", 1, 1),
    (b"a\n\"b\nc", 2, 2),
    (b"\"a\\", 2, 1),
    (b"\"\\\n\"", 2, 1),
    (b"\n/* a\nb", 2, 2),
    (b"/*/", 2, 1),
    (b"\n/*\n\xff", 2, 2),
    (b"/*\n'", 2, 1),
    (b"' 00 \"\n", 2, 1),
    (b"01", 3, 1),
    (b"0x", 3, 1),
    (b"0x12345678901234567", 3, 1),
    (b"18446744073709551616", 3, 1),
    (b"\n1a", 3, 2),
    (b"1\xc2\xb7", 3, 1),
    (b"\"\\x1\"", 3, 1),
    (b"\"\\r\"", 3, 1),
    (b"' 1_", 3, 1),
    (b">", 4, 1),
    (b"a\n\\ \n", 4, 2),
    (b"/*\n\0*/", 4, 2),
    (b"\"\0\"\n\xff", 4, 1),
    (b"\xef\xbb\xbfa", 4, 1),
];

fn refusal(number: u8, line: u32) -> LexNo {
    let pos = Pos { file: 5, line };
    match number {
        1 => LexNo::L1(pos),
        2 => LexNo::L2(pos),
        3 => LexNo::L3(pos),
        _ => LexNo::L4(pos),
    }
}

#[test]
fn refusals(rt: HostRuntime) {
    for (source, number, line) in REFUSED {
        assert_eq!(rt;
            lex(rt.alloc(), 5, source).err(),
            Some(refusal(number, line)),
            "{source:?}"
        );
    }
}
