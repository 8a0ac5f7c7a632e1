//! Builds at the limits: of nesting, of files, of lengths, of tokens and of uses.
use super::{expand_all, expand_bytes, expand_files};
use crate::test_runs::file;
use goasm_base::{Bytes, Memory, Name, Text};
use std::alloc::{AllocError, Global};
use std::test::Fail;

// Macros `N0`, `N1` and so on, of which each stands for the next one. So the first one nests as deep as there are macros.
fn push_nest(text: &mut Text, depth: u64) -> Result<(), Memory> {
    for number in 0..depth {
        text.push(b"#define N")?;
        text.push_unsigned(number)?;
        text.push(b" N")?;
        text.push_unsigned(number.saturating_add(1))?;
        text.push(b"\n")?;
    }
    Ok(())
}

fn nest(alloc: Global, depth: u64, behind: &[u8]) -> Result<Bytes, Memory> {
    let mut text = Text::new(alloc);
    push_nest(&mut text, depth)?;
    text.push(behind)?;
    Ok(text.finish())
}

#[test]
fn macros_nest_up_to_100_deep(rt: HostRuntime) -> Result<(), Fail> {
    for (depth, behind, want) in [
        (100, b"\nN0".as_slice(), Ok("m.s:102 N100\n")),
        (101, b"\nN0", Err("m.s:103: M4\n")),
        (101, b"x N0 y\nN0", Err("m.s:102: M4\n")),
        (101, b"N1", Ok("m.s:102 N101\n")),
        // A macro that takes its arguments from behind the use isn't inside the bodies that end before them.
        (
            99,
            b"#define N99 F\n#define F(a) a\nN0(1)",
            Ok("m.s:102 1\n"),
        ),
        (
            99,
            b"#define N99 F(1)\n#define F(a) a\nN0",
            Err("m.s:102: M4\n"),
        ),
        (
            98,
            b"#define N98 F(1)\n#define F(a) a\nN0",
            Ok("m.s:101 1\n"),
        ),
        // One that takes none is refused for that first.
        (
            99,
            b"#define N99 F\n#define F(a) a\nN0",
            Err("m.s:102: M3\n"),
        ),
    ] {
        let source = nest(rt.alloc(), depth, behind)?;
        expand_bytes(&rt, rt.alloc(), b"asm m.s", source.as_slice(), want)?;
    }
    Ok(())
}

fn push_inclusion(text: &mut Text, number: u64) -> Result<(), Memory> {
    text.push(b"#include \"i")?;
    text.push_unsigned(number)?;
    text.push(b"\"\n")
}

fn name(alloc: Global, number: u64) -> Result<Name, Memory> {
    let mut text = Text::new(alloc);
    text.push(b"i")?;
    text.push_unsigned(number)?;
    Ok(Name::new(Vec::from_slice(alloc, text.finish().as_slice())?))
}

fn inclusion(alloc: Global, number: u64) -> Result<Bytes, Memory> {
    let mut text = Text::new(alloc);
    push_inclusion(&mut text, number)?;
    Ok(text.finish())
}

// A source that includes `i1`, and files of which each includes the next one, but for the last, which has this text.
fn inclusions(alloc: Global, depth: u64, last: &[u8]) -> Result<Vec<(Name, Bytes)>, Fail> {
    let mut files = Vec::new(alloc);
    let mut list = Text::new(alloc);
    list.push(b"asm m.s\n")?;
    files.push(file(alloc, b"m.s", b"#define A 1\n#include \"i1\"\n")?)?;
    for number in 1..depth {
        list.push(b"include i")?;
        list.push_unsigned(number)?;
        list.push(b"\n")?;
        files.push((
            name(alloc, number)?,
            inclusion(alloc, number.saturating_add(1))?,
        ))?;
    }
    list.push(b"include i")?;
    list.push_unsigned(depth)?;
    files.push((
        name(alloc, depth)?,
        Bytes::new(Vec::from_slice(alloc, last)?),
    ))?;
    files.push((Name::new(Vec::from_slice(alloc, b"e.list")?), list.finish()))?;
    Ok(files)
}

#[test]
fn inclusions_nest_up_to_100_deep(rt: HostRuntime) -> Result<(), Fail> {
    for (depth, last, want) in [
        (100, b"\nx".as_slice(), Ok("i100:2 x\n")),
        (101, b"x", Err("i100:1: M4\n")),
        // A macro in a file counts as one level more.
        (99, b"x A", Ok("i99:1 x 1\n")),
        (100, b"x\nA", Err("i100:2: M4\n")),
        // The files that are built in count too, and one that is missing is named first.
        (99, b"#include \"textflag.h\"\nDUPOK", Ok("i99:2 2\n")),
        (100, b"#include \"textflag.h\"\n", Err("i100:1: M4\n")),
        (100, b"#include \"x.h\"\n", Err("i100:1: M1\n")),
    ] {
        expand_files(
            &rt,
            rt.alloc(),
            "inclusions",
            inclusions(rt.alloc(), depth, last)?,
            want,
        )?;
    }
    Ok(())
}

fn repeated(alloc: Global, text: &[u8], count: usize) -> Result<Bytes, Memory> {
    let mut whole = Text::new(alloc);
    for _ in 0..count {
        whole.push(text)?;
    }
    Ok(whole.finish())
}

#[test]
fn a_list_names_up_to_1000_files(rt: HostRuntime) -> Result<(), Fail> {
    let most = repeated(rt.alloc(), b"asm m.s\n\ninclude m.s\n", 500)?;
    expand_bytes(&rt, rt.alloc(), most.as_slice(), b"#define A\nA", Ok(""))?;
    let more = repeated(rt.alloc(), b"asm m.s\n\ninclude m.s\n", 501)?;
    expand_bytes(
        &rt,
        rt.alloc(),
        more.as_slice(),
        b"@",
        Err("e.list:1501: Q1\n"),
    )?;
    Ok(())
}

#[test]
fn files_have_longest_lengths(rt: HostRuntime) -> Result<(), Fail> {
    let list = vec![in rt.alloc(); b'\n'; 1 << 20]?;
    expand_bytes(&rt, rt.alloc(), &list, b"", Ok(""))?;
    let mut list = list;
    list[0] = b'x';
    expand_bytes(&rt, rt.alloc(), &list, b"", Err("e.list:1: Q1\n"))?;
    list.push(b'\n')?;
    expand_bytes(&rt, rt.alloc(), &list, b"", Err("e.list: too long\n"))?;
    Ok(())
}

fn long_sources(
    alloc: Global,
    first: &[u8],
    list: &[u8],
    length: usize,
) -> Result<Vec<(Name, Bytes)>, AllocError> {
    let mut files = Vec::new(alloc);
    files.push(file(alloc, b"e.list", list)?)?;
    files.push(file(alloc, b"a.s", first)?)?;
    files.push((
        Name::new(Vec::from_slice(alloc, b"b.s")?),
        Bytes::new(vec![in alloc; b' '; length]?),
    ))?;
    Ok(files)
}

#[test]
fn a_source_is_taken_up_to_its_limit(rt: HostRuntime) -> Result<(), Fail> {
    let files = long_sources(rt.alloc(), b"RET", b"asm a.s\nasm b.s", 16 << 20)?;
    expand_files(&rt, rt.alloc(), "long files", files, Ok("a.s:1 RET\n"))?;
    Ok(())
}

#[test]
fn a_source_that_is_too_long_is_named(rt: HostRuntime) -> Result<(), Fail> {
    for (first, list, want) in [
        // The files before it are judged first, and it before macros.
        (
            b"\n@".as_slice(),
            b"asm a.s\nasm b.s".as_slice(),
            "a.s:2: L4\n",
        ),
        (b"#foo", b"asm a.s\nasm b.s", "b.s: too long\n"),
        (b"@", b"include b.s\nasm a.s", "b.s: too long\n"),
    ] {
        let files = long_sources(rt.alloc(), first, list, (16 << 20) + 1)?;
        expand_files(&rt, rt.alloc(), "long files", files, Err(want))?;
    }
    Ok(())
}

// Macros of which each stands for ten of the one before it.
const TENS: &[u8] = b"
#define B A A A A A A A A A A
#define C B B B B B B B B B B
#define D C C C C C C C C C C
#define E D D D D D D D D D D
#define F E E E E E E E E E E
";

// How many tokens they give, where the first one gives ten.
const TOKENS: [(&[u8], u64); 7] = [
    (b"F ", 1_000_000),
    (b"E ", 100_000),
    (b"D ", 10_000),
    (b"C ", 1_000),
    (b"B ", 100),
    (b"A ", 10),
    (b"; ", 1),
];

// How many uses they are, where the first one has ten uses of a macro without a body.
const USES: [(&[u8], u64); 7] = [
    (b"F ", 1_111_111),
    (b"E ", 111_111),
    (b"D ", 11_111),
    (b"C ", 1_111),
    (b"B ", 111),
    (b"A ", 11),
    (b"Z ", 1),
];

fn push_count(text: &mut Text, units: &[(&[u8], u64)], count: u64) -> Result<(), Memory> {
    let mut left = count;
    for (unit, size) in units {
        for _ in 0..left.checked_div(*size).unwrap_or(0) {
            text.push(unit)?;
        }
        left = left.checked_rem(*size).unwrap_or(0);
    }
    Ok(())
}

// On line 7 stand as many `;` that come from macros.
fn tokens(alloc: Global, count: u64, behind: &[u8]) -> Result<Bytes, Memory> {
    let mut text = Text::new(alloc);
    text.push(b"#define A ;;;;;;;;;;")?;
    text.push(TENS)?;
    push_count(&mut text, &TOKENS, count)?;
    text.push(behind)?;
    Ok(text.finish())
}

#[test]
fn results_have_up_to_4000000_tokens(rt: HostRuntime) -> Result<(), Fail> {
    for (count, first, behind, want) in [
        // The end of a file counts as a newline, and a newline as a token; those of all sources count.
        (
            3_999_996,
            b"x\n".as_slice(),
            b"".as_slice(),
            Ok("a.s:1 x\n"),
        ),
        (3_999_996, b"x\n", b"RET", Err("b.s:7: M7\n")),
        (3_999_995, b"x\n", b"\nRET", Err("b.s:8: M7\n")),
    ] {
        let mut files = Vec::new(rt.alloc());
        files.push(file(rt.alloc(), b"e.list", b"asm a.s\nasm b.s")?)?;
        files.push(file(rt.alloc(), b"a.s", first)?)?;
        files.push((
            Name::new(Vec::from_slice(rt.alloc(), b"b.s")?),
            tokens(rt.alloc(), count, behind)?,
        ))?;
        expand_files(&rt, rt.alloc(), "long files", files, want)?;
    }
    Ok(())
}

// On line 110 stand as many uses of macros. `G` is a macro with a parameter, and `N0` nests 101 deep.
fn uses(alloc: Global, count: u64, before: &[u8], behind: &[u8]) -> Result<Bytes, Memory> {
    let mut text = Text::new(alloc);
    push_nest(&mut text, 101)?;
    text.push(b"#define G(a)\n#define Z\n#define A Z Z Z Z Z Z Z Z Z Z")?;
    text.push(TENS)?;
    text.push(before)?;
    push_count(&mut text, &USES, count)?;
    text.push(behind)?;
    Ok(text.finish())
}

#[test]
fn sources_have_up_to_4000000_uses(rt: HostRuntime) -> Result<(), Fail> {
    for (count, before, behind, want) in [
        (
            4_000_000,
            b"".as_slice(),
            b"\nRET".as_slice(),
            Ok("m.s:111 RET\n"),
        ),
        (4_000_001, b"", b"", Err("m.s:110: M7\n")),
        (4_000_000, b"", b"\nRET; x Z", Err("m.s:111: M7\n")),
        // What is included counts as a use, and what is missing doesn't.
        (
            4_000_000,
            b"",
            b"\n#include \"textflag.h\"",
            Err("m.s:111: M7\n"),
        ),
        (
            3_999_999,
            b"",
            b"\n#include \"textflag.h\"\nDUPOK",
            Err("m.s:112: M7\n"),
        ),
        (4_000_000, b"", b"\n#include \"x.h\"", Err("m.s:111: M1\n")),
        // Up to the use that passes the limit a lower number is named, and at it that of nesting alone.
        (4_000_000, b"G ", b"", Err("m.s:110: M3\n")),
        (4_000_000, b"", b"G", Err("m.s:110: M7\n")),
        (4_000_000, b"", b"G(1,2)", Err("m.s:110: M7\n")),
        (3_999_999, b"", b"G(1,2)", Err("m.s:110: M2\n")),
        (3_999_900, b"", b"N0", Err("m.s:110: M4\n")),
        (3_999_901, b"", b"N0", Err("m.s:110: M7\n")),
    ] {
        let source = uses(rt.alloc(), count, before, behind)?;
        expand_bytes(&rt, rt.alloc(), b"asm m.s", source.as_slice(), want)?;
    }
    Ok(())
}
