use asm_lex::{Token, Tokens, lex};
use asm_macro::{Limits, MacroNo, expand, expand_within, greatest_of, line_names};
use goasm_base::{Memory, Name, Pos, Text};
use std::alloc::Global;
use std::test::Fail;

const LARGE: Limits = Limits {
    tokens: 4_000_000,
    uses: 4_000_000,
    nesting: 100,
};

const SMALL: Limits = Limits {
    tokens: 6,
    uses: 4,
    nesting: 2,
};

// The files that sources may include have the numbers from 2 on; a source has 1.
const INCLUDES: [(&str, &str); 5] = [
    ("a.h", "#define B RET\nB\n"),
    ("e.h", "#endif\n"),
    ("l.h", "#line 9 \"z\"\nX\n"),
    ("u.h", "U\n"),
    ("r.h", "\n#include \"r.h\"\n"),
];

const DEFINES: [(&str, &str); 2] = [("D", "4 2"), ("E", "")];

// A source and its tokens: before each that stands elsewhere than the one before it its file and line, and `NL` for a
// newline; or the refusal with its place.
const SOURCES: [(&str, &str); 40] = [
    ("", "1:1 NL"),
    ("RET;\n\n", "1:1 RET ; NL 1:2 NL 1:3 NL"),
    (
        "\n#define MOV2(a,b) MOVQ a, b; MOVQ b, a\nMOV2(AX, BX)",
        "1:1 NL 1:3 MOVQ AX , BX ; MOVQ BX , AX NL",
    ),
    ("#define A RET\n\nA", "1:2 NL 1:3 RET NL"),
    ("#define A 1;2\nA", "1:2 1 ; 2 NL"),
    ("#define A 1 \\\n 2\nA", "1:3 1 2 NL"),
    ("#define A B C\nRET \\\nA", "1:2 RET 1:3 B C NL"),
    ("#define A\nA", "1:2 NL"),
    ("#define F (1)\nF", "1:2 ( 1 ) NL"),
    ("#define F() RET\nF()", "1:2 RET NL"),
    ("#define F(a) a RET\nF()", "1:2 RET NL"),
    ("#define F(a,b) a b\nF((1,2),3)", "1:2 ( 1 , 2 ) 3 NL"),
    ("#define F(a) a a\nF(F(1))", "1:2 1 1 1 1 NL"),
    ("#define F(a)a\n#define G F\nG(1)", "1:3 1 NL"),
    ("#define F(a) a\nF (1) x", "1:2 1 x NL"),
    ("#define A # x\nA", "1:2 # x NL"),
    ("RET; #define A 1", "1:1 RET ; # define A 1 NL"),
    ("#define A B\n#define B 1\nA", "1:3 1 NL"),
    (
        "#define A 1\n#undef A\nA\n#define A 2\nA",
        "1:3 A NL 1:5 2 NL",
    ),
    ("#undef A\nA", "1:2 A NL"),
    ("# define A 1\nA", "1:2 1 NL"),
    ("D E x", "1:1 4 2 x NL"),
    ("#undef D\nD", "1:2 D NL"),
    ("#include \"a.h\"\nB", "2:2 RET NL 2:3 NL 1:2 RET NL"),
    ("#include \"l.h\"\nY", "7:9 X NL 7:10 NL 1:2 Y NL"),
    (
        "#define U 1\n#include \"\\x75.h\"\nU",
        "5:1 1 NL 5:2 NL 1:3 1 NL",
    ),
    (
        "#include \"textflag.h\"\nNOSPLIT|TOPFRAME",
        "1:2 4 | 2048 NL",
    ),
    ("#include \"funcdata.h\"\nGO_ARGS", "1:2 NL"),
    (
        "#include \"textflag.h\"\n#undef DUPOK\n#include \"textflag.h\"\nDUPOK NOPTR",
        "1:4 2 16 NL",
    ),
    ("#line 7 \"y.s\"\nRET\nA", "7:7 RET NL 7:8 A NL"),
    ("#line 5000000000 \"y\"\nA\nB", "7:2147483646 A NL B NL"),
    (
        "#line 1 \"a\"\nX\n#line 1 \"b\"\nY\n#line 1 \"c\"\nZ",
        "7:1 X NL 8:1 Y NL 9:1 Z NL",
    ),
    ("#ifdef A\n1\n#else\n2\n#endif\n3", "1:4 2 NL 1:6 3 NL"),
    ("#ifndef A\n1\n#else\n2\n#endif", "1:2 1 NL"),
    ("#ifdef D\n1\n#endif", "1:2 1 NL"),
    (
        "#ifdef A\n#foo\n#ifdef 1 2\n#else x\n#endif y\nF(\n#else\nRET\n#endif",
        "1:8 RET NL",
    ),
    ("#ifdef A\n#line 9 \"q\"\n#endif\nB", "1:4 B NL"),
    ("F(x", "1:1 F ( x NL"),
    ("#define F(a) G a\n#define G(a) a\nF((1))", "1:3 1 NL"),
    ("#define F(a) a\nF(D)", "1:2 4 2 NL"),
];

// Sources that are refused.
const REFUSED: [(&str, &str); 44] = [
    ("#line 3 \"y\"\n#line 4 \"x\"\n#foo", "M5 8:4"),
    ("#include \"x.h\"", "M1 1:1"),
    ("\n\n#include \"A.h\"", "M1 1:3"),
    ("#define F(a) a\nF(1,2)", "M2 1:2"),
    ("#define F(a,b) a\n\nF(1)", "M2 1:3"),
    ("#define F() 1\nF(2)", "M2 1:2"),
    ("#define F(a) a\nF F(1,2)", "M2 1:2"),
    ("#define F(a) a\nF(F(1,2)", "M2 1:2"),
    ("#define A A\n#define F(a) a\nA F(1,2)", "M2 1:3"),
    ("#define F(a) a\nx F", "M3 1:2"),
    ("#define F(a) a\nF(1\n)", "M3 1:2"),
    ("#define F(a) a\nF(1;2)", "M3 1:2"),
    ("#define A A\n#define F(a) a\nA F", "M3 1:3"),
    ("#define F(a) a\nx \\\n F", "M3 1:2"),
    ("#define A A\n\nA", "M4 1:3"),
    ("#define A B\n#define B x A\nA", "M4 1:3"),
    ("\n#include \"r.h\"", "M4 6:2"),
    ("#", "M5 1:1"),
    ("#foo", "M5 1:1"),
    ("#define", "M5 1:1"),
    ("#define 1 2", "M5 1:1"),
    ("#define F(a,) a", "M5 1:1"),
    ("#define F(a a) a", "M5 1:1"),
    ("#define F(a,a) a", "M5 1:1"),
    ("#define F(a", "M5 1:1"),
    ("#undef A; x", "M5 1:1"),
    ("#include x", "M5 1:1"),
    ("#line 1", "M5 1:1"),
    ("#line \"a\" 1", "M5 1:1"),
    ("#ifdef A B\n#endif", "M5 1:1"),
    ("#ifdef A\n#endif x", "M5 1:2"),
    ("#ifdef A\n#else x\n#endif", "M5 1:2"),
    ("#ifdef A\n#else\n#else\n#endif", "M5 1:3"),
    ("#ifdef A\n#ifdef B\n#else\n#else\n#endif\n#endif", "M5 1:4"),
    ("x\n#else", "M5 1:2"),
    ("x\n#endif", "M5 1:2"),
    ("#ifdef A\n\n#ifdef B\n", "M5 1:3"),
    ("#ifndef A\n#include \"e.h\"\n#endif", "M5 3:1"),
    ("#define A 1\n#define A 1", "M6 1:2"),
    ("#define A 1\n#define A(x,) 1", "M5 1:2"),
    ("#define D 1", "M6 1:1"),
    ("#define RODATA 1\n\n#include \"textflag.h\"", "M6 1:3"),
    ("#include \"textflag.h\"\n#define RODATA 8", "M6 1:2"),
    ("#include \"a.h\"\n#include \"a.h\"", "M6 2:1"),
];

// The same under small limits: 6 tokens, 4 uses, 2 levels.
const LIMITED: [(&str, &str); 12] = [
    ("1 2 3 4 5", "1:1 1 2 3 4 5 NL"),
    ("1 2 3\n4 5 6", "M7 1:2"),
    ("#define A 1\nA A A A", "1:2 1 1 1 1 NL"),
    ("#define A 1\nA A A A A", "M7 1:2"),
    ("#define A\nA A A A\n\n#include \"u.h\"", "M7 1:4"),
    ("#define A\nA A A A\nx A", "M7 1:3"),
    ("#define A B\n#define B 1\nA", "1:3 1 NL"),
    ("#define A B\n#define B C\n#define C 1\nA", "M4 1:4"),
    ("#define U V\n#define V 1\n#include \"u.h\"", "M4 5:1"),
    (
        "#define A\n#define B C\n#define C D\n#define D 1\nA A B",
        "M4 1:5",
    ),
    ("#define F(a)\nF 1 2 3 4 5 6 7 F(1,2)", "M3 1:2"),
    ("#define F(a) a\n#define G F\n#define H G\nH(1)", "1:4 1 NL"),
];

fn named_tokens<'a>(
    alloc: Global,
    file: u32,
    name: &str,
    text: &'a str,
) -> Result<(Name, Tokens<'a>), Fail> {
    let name = Name::from_slice(alloc, name.as_bytes())?;
    Ok((name, lex(alloc, file, text.as_bytes())?))
}

fn includes<'a>(alloc: Global) -> Result<Vec<(Name, Tokens<'a>)>, Fail> {
    let mut files = Vec::new(alloc);
    let mut file: u32 = 1;
    for (name, text) in INCLUDES {
        file = file.saturating_add(1);
        files.push(named_tokens(alloc, file, name, text)?)?;
    }
    Ok(files)
}

fn defines<'a>(alloc: Global) -> Result<Vec<(Name, Tokens<'a>)>, Fail> {
    let mut values = Vec::new(alloc);
    for (name, text) in DEFINES {
        values.push(named_tokens(alloc, 0, name, text)?)?;
    }
    Ok(values)
}

fn show_place(text: &mut Text, pos: Pos) -> Result<(), Memory> {
    text.push_unsigned(u64::from(pos.file))?;
    text.push(b":")?;
    text.push_unsigned(u64::from(pos.line))
}

fn show_token(text: &mut Text, token: &Token<'_>) -> Result<(), Memory> {
    match token.text.as_slice() {
        [b'\n'] => text.push(b"NL"),
        bytes => text.push(bytes),
    }
}

fn show_tokens(text: &mut Text, tokens: &[Token<'_>]) -> Result<(), Memory> {
    let mut last = Pos { file: 0, line: 0 };
    let mut first = true;
    for token in tokens {
        if !first {
            text.push(b" ")?;
        }
        first = false;
        if token.pos != last {
            show_place(text, token.pos)?;
            text.push(b" ")?;
            last = token.pos;
        }
        show_token(text, token)?;
    }
    Ok(())
}

fn show_refusal(text: &mut Text, no: MacroNo) -> Result<(), Memory> {
    let (code, pos): (&[u8], Pos) = match no {
        MacroNo::M1(pos) => (b"M1 ", pos),
        MacroNo::M2(pos) => (b"M2 ", pos),
        MacroNo::M3(pos) => (b"M3 ", pos),
        MacroNo::M4(pos) => (b"M4 ", pos),
        MacroNo::M5(pos) => (b"M5 ", pos),
        MacroNo::M6(pos) => (b"M6 ", pos),
        MacroNo::M7(pos) => (b"M7 ", pos),
        MacroNo::Memory => return Err(Memory),
    };
    text.push(code)?;
    show_place(text, pos)
}

fn shown<'a>(
    alloc: Global,
    limits: Limits,
    source: &'a str,
    includes: &[(Name, Tokens<'a>)],
    defines: &[(Name, Tokens<'a>)],
) -> Result<Text, Fail> {
    let mut sources = Vec::new(alloc);
    sources.push(lex(alloc, 1, source.as_bytes())?)?;
    let names = line_names(alloc, &sources, includes)?;
    if names.len() > 100 || greatest_of(&sources, includes, defines) > 100 {
        return Err("too many files".into());
    }
    let mut text = Text::new(alloc);
    match expand_within(alloc, limits, &sources, includes, defines) {
        Ok(all) => {
            for tokens in &all {
                show_tokens(&mut text, tokens.list.as_slice())?;
            }
        }
        Err(no) => show_refusal(&mut text, no)?,
    }
    Ok(text)
}

#[test]
fn sources(rt: HostRuntime) -> Result<(), Fail> {
    let alloc = rt.alloc();
    for (source, expected) in SOURCES {
        let text = shown(alloc, LARGE, source, &includes(alloc)?, &defines(alloc)?)?;
        assert_eq!(rt; text.finish().as_slice(), expected.as_bytes(), "{source}");
    }
    Ok(())
}

#[test]
fn refusals(rt: HostRuntime) -> Result<(), Fail> {
    let alloc = rt.alloc();
    for (source, expected) in REFUSED {
        let text = shown(alloc, LARGE, source, &includes(alloc)?, &defines(alloc)?)?;
        assert_eq!(rt; text.finish().as_slice(), expected.as_bytes(), "{source}");
    }
    Ok(())
}

#[test]
fn limits(rt: HostRuntime) -> Result<(), Fail> {
    let alloc = rt.alloc();
    for (source, expected) in LIMITED {
        let text = shown(alloc, SMALL, source, &includes(alloc)?, &[])?;
        assert_eq!(rt; text.finish().as_slice(), expected.as_bytes(), "{source}");
    }
    Ok(())
}

#[test]
fn many_sources(rt: HostRuntime) -> Result<(), Fail> {
    let alloc = rt.alloc();
    let mut sources = Vec::new(alloc);
    sources.push(lex(alloc, 1, b"#define A 1\nA")?)?;
    sources.push(lex(alloc, 2, b"A")?)?;
    sources.push(lex(alloc, 3, b"#define A\nA 5")?)?;
    let names = line_names(alloc, &sources, &[])?;
    if names.len() > 100 || greatest_of(&sources, &[], &[]) > 100 {
        return Err("too many files".into());
    }
    let mut text = Text::new(alloc);
    for tokens in &expand_within(alloc, SMALL, &sources, &[], &[])? {
        text.push_unsigned(u64::from(tokens.file))?;
        text.push(b"[")?;
        show_tokens(&mut text, tokens.list.as_slice())?;
        text.push(b"]")?;
    }
    assert_eq!(rt;
        text.finish().as_slice(),
        b"1[1:2 1 NL]2[2:1 A NL]3[3:2 5 NL]".as_slice()
    );
    Ok(())
}

#[test]
fn many_defines(rt: HostRuntime) -> Result<(), Fail> {
    let alloc = rt.alloc();
    let mut defines = Vec::new(alloc);
    defines.push(named_tokens(alloc, 0, "A", "1")?)?;
    defines.push(named_tokens(alloc, 0, "B-", "1")?)?;
    defines.push(named_tokens(alloc, 0, "A", " \\\n1")?)?;
    let names = line_names(alloc, &[], &[])?;
    if names.len() > 100 || greatest_of(&[], &[], &defines) > 100 {
        return Err("too many files".into());
    }
    let refused = expand_within(alloc, LARGE, &[], &[], &defines).err();
    assert_eq!(rt; refused, Some(MacroNo::M6(Pos { file: 0, line: 2 })));
    Ok(())
}

#[test]
fn no_sources(rt: HostRuntime) -> Result<(), Fail> {
    let alloc = rt.alloc();
    let names = line_names(alloc, &[], &[])?;
    assert_eq!(rt; names.len(), 0);
    assert_eq!(rt; greatest_of(&[], &[], &[]), 0);
    let all = expand(alloc, &[], &[], &[])?;
    assert_eq!(rt; all.len(), 0);
    Ok(())
}

#[test]
fn one_source(rt: HostRuntime) -> Result<(), Fail> {
    let alloc = rt.alloc();
    let mut sources = Vec::new(alloc);
    sources.push(lex(alloc, 7, b"#include \"textflag.h\"\nNOSPLIT")?)?;
    let names = line_names(alloc, &sources, &[])?;
    if names.len() > 100 || greatest_of(&sources, &[], &[]) > 100 {
        return Err("too many files".into());
    }
    let mut text = Text::new(alloc);
    for tokens in &expand(alloc, &sources, &[], &[])? {
        show_tokens(&mut text, tokens.list.as_slice())?;
    }
    assert_eq!(rt; text.finish().as_slice(), b"7:2 4 NL".as_slice());
    Ok(())
}

#[test]
fn names_of_lines(rt: HostRuntime) -> Result<(), Fail> {
    let alloc = rt.alloc();
    let mut sources = Vec::new(alloc);
    sources.push(lex(
        alloc,
        1,
        b"#line 7 \"y.s\"\n#ifdef A\n#line 8 \"q\"\n#endif\n#line 9 \"y.s\"\n#line x\nx; #line 1 \"w\"",
    )?)?;
    sources.push(lex(
        alloc,
        2,
        b"#line 1 \"\"\n#line 2 \"a\\\\\\\"\\n\\t\\x4A\\x4aJ\"",
    )?)?;
    let mut text = Text::new(alloc);
    for name in &line_names(alloc, &sources, &includes(alloc)?)? {
        text.push(b"[")?;
        text.push(name.as_slice())?;
        text.push(b"]")?;
    }
    assert_eq!(rt;
        text.finish().as_slice(),
        b"[y.s][q][][a\\\"\n\tJJJ][z]".as_slice()
    );
    Ok(())
}
