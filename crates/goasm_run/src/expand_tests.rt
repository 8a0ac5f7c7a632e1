//! Builds that the command `expand` prints or refuses. What is wanted was worked out from the language's rules.
use crate::test_runs::{NONE, expect, file};
use goasm_base::{Bytes, Name};
use std::alloc::{AllocError, Global};
use std::process::Abort;
use std::test::Fail;

mod limits;
mod lists;
mod macros;
mod tokens;

// Expands the list `e.list` over files, the list among them, and tests that the text is printed, or the line written.
fn expand_files<R: Abort>(
    rt: &R,
    alloc: Global,
    what: &str,
    files: Vec<(Name, Bytes)>,
    want: Result<&str, &str>,
) -> Result<(), AllocError> {
    let want = match want {
        Ok(text) => (0, text.as_bytes(), b"".as_slice()),
        Err(line) => (1, b"".as_slice(), line.as_bytes()),
    };
    expect(rt, alloc, what, &[b"expand", b"e.list"], files, NONE, want)
}

// The same over the list and files given here, of which the last one is told.
fn expand_all<R: Abort>(
    rt: &R,
    alloc: Global,
    list: &str,
    named: &[(&str, &str)],
    want: Result<&str, &str>,
) -> Result<(), AllocError> {
    let mut files = Vec::new(alloc);
    files.push(file(alloc, b"e.list", list.as_bytes())?)?;
    for (name, text) in named {
        files.push(file(alloc, name.as_bytes(), text.as_bytes())?)?;
    }
    let what = match named.last() {
        Some((_, text)) => text,
        None => list,
    };
    expand_files(rt, alloc, what, files, want)
}

// The same over a list and a source `m.s`, which need be no text.
fn expand_bytes<R: Abort>(
    rt: &R,
    alloc: Global,
    list: &[u8],
    source: &[u8],
    want: Result<&str, &str>,
) -> Result<(), AllocError> {
    let mut files = Vec::new(alloc);
    files.push(file(alloc, b"e.list", list)?)?;
    files.push(file(alloc, b"m.s", source)?)?;
    expand_files(rt, alloc, "a list and a source", files, want)
}

// Macros that double, 22 deep.
const DOUBLING: &str = "\
#define A0 B B\n#define A1 A0 A0\n#define A2 A1 A1\n#define A3 A2 A2\n\
#define A4 A3 A3\n#define A5 A4 A4\n#define A6 A5 A5\n#define A7 A6 A6\n\
#define A8 A7 A7\n#define A9 A8 A8\n#define A10 A9 A9\n#define A11 A10 A10\n\
#define A12 A11 A11\n#define A13 A12 A12\n#define A14 A13 A13\n#define A15 A14 A14\n\
#define A16 A15 A15\n#define A17 A16 A16\n#define A18 A17 A17\n#define A19 A18 A18\n\
#define A20 A19 A19\n#define A21 A20 A20\nA21";

#[test]
fn each_rule_is_kept_and_each_code_comes_at_its_line(rt: HostRuntime) -> Result<(), Fail> {
    let alloc = rt.alloc();
    lists::lists_are_read_or_refused(&rt, alloc)?;
    tokens::tokens_are_printed_or_refused(&rt, alloc)?;
    macros::macros_are_expanded_or_refused(&rt, alloc)?;
    expand_all(
        &rt,
        alloc,
        "asm m.s",
        &[("m.s", DOUBLING)],
        Err("m.s:23: M7\n"),
    )?;
    Ok(())
}
