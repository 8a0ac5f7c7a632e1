//! What the names of builds stand for, and the first refusal.
ghost use Rattle.std.specs.Prelude.{All};
ghost use Rattle.asm_parse.specs.Valid.{IsValidUnit};

use crate::units::unit_of;
use asm_parse::Unit;
use goasm_base::{Memory, Name, Text};
use link_names::{
    DataNo, Meaning, Names, NamesNo, SymbolNo, judge_addresses, judge_data, judge_entry,
};
use std::alloc::Global;
use std::process::Abort;
use std::test::Fail;

// The sources of two units, an outside name, the entry, and what is told.
type Row<'a> = (&'a str, &'a str, &'a str, &'a str, &'a str);

// What the entry stands for, or the first refusal.
fn told(
    alloc: Global,
    units: &[Unit; 2],
    outside: &[(Name, u64)],
    entry: &Name,
) -> Result<Text, Fail>
    requires { All IsValidUnit units.now }
{
    let names = match Names::new(alloc, units, outside) {
        Ok(names) => names,
        Err(NamesNo::N1(name)) => return refused(alloc, b"N1 ", &name),
        Err(NamesNo::Memory) => return Err(Memory)?,
    };
    match judge_data(alloc, units, &names) {
        Ok(()) => {}
        Err(DataNo::N6(name)) => return refused(alloc, b"N6 ", &name),
        Err(DataNo::Memory) => return Err(Memory)?,
    }
    match undefined(alloc, units, &names, entry) {
        Ok(()) => {}
        Err(SymbolNo::N2(name)) => return refused(alloc, b"N2 ", &name),
        Err(SymbolNo::Memory) => return Err(Memory)?,
    }
    meant(alloc, names.global(entry.as_slice()))
}

fn undefined(
    alloc: Global,
    units: &[Unit; 2],
    names: &Names<'_>,
    entry: &Name,
) -> Result<(), SymbolNo>
    requires { All IsValidUnit units.now }
{
    judge_addresses(alloc, names, 0, &units[0])?;
    judge_addresses(alloc, names, 1, &units[1])?;
    judge_entry(alloc, names, entry)
}

fn refused(alloc: Global, code: &[u8], name: &Name) -> Result<Text, Fail> {
    let mut text = Text::new(alloc);
    text.push(code)?;
    text.push(name.as_slice())?;
    Ok(text)
}

fn meant(alloc: Global, meaning: Option<Meaning>) -> Result<Text, Fail> {
    let mut text = Text::new(alloc);
    if let Some(Meaning::Function { unit, number }) = meaning {
        text.push_unsigned(unit as u64)?;
        text.push(b" ")?;
        text.push_unsigned(number as u64)?;
    }
    Ok(text)
}

fn expect<R: Abort>(rt: &R, alloc: Global, rows: &[Row]) -> Result<(), Fail> {
    for (first, second, outside, entry, wanted) in rows {
        let units = [unit_of(alloc, 0, *first)?, unit_of(alloc, 1, *second)?];
        let outside = [(Name::from_slice(alloc, outside.as_bytes())?, 0x1000)];
        let entry = Name::from_slice(alloc, entry.as_bytes())?;
        let found = told(alloc, &units, &outside, &entry)?.finish();
        assert_eq!(rt; found.as_slice(), wanted.as_bytes(), "{first:?} {second:?}");
    }
    Ok(())
}

// Two definitions of one name: both with DUPOK, 2, or not, of functions and of data, in one unit or two.
const DEFINED: [Row; 10] = [
    (
        "TEXT f(SB), 4, $0-0\n",
        "TEXT g(SB), 4, $0-0\nTEXT h(SB), 4, $0-0\n",
        "ext",
        "h",
        "1 1",
    ),
    (
        "TEXT f(SB), 4, $0-0\nTEXT f(SB), 4, $0-0\n",
        "",
        "ext",
        "f",
        "N1 f",
    ),
    (
        "TEXT f(SB), 6, $0-0\n",
        "TEXT g(SB), 6, $0-0\nTEXT f(SB), 6, $0-0\n",
        "ext",
        "f",
        "0 0",
    ),
    (
        "TEXT f(SB), 6, $0-0\n",
        "TEXT f(SB), 4, $0-0\n",
        "ext",
        "f",
        "N1 f",
    ),
    (
        "TEXT f(SB), 4, $0-0\n",
        "TEXT f(SB), 6, $0-0\n",
        "ext",
        "f",
        "N1 f",
    ),
    (
        "TEXT s<>(SB), 4, $0-0\n",
        "TEXT s<>(SB), 4, $0-0\nTEXT s(SB), 4, $0-0\n",
        "ext",
        "s",
        "1 1",
    ),
    ("TEXT s<>(SB), 4, $0-0\n", "", "ext", "s", "N2 s"),
    (
        "GLOBL v(SB), 16, $8\nTEXT f(SB), 4, $0-0\nGLOBL f(SB), 2, $8\n",
        "TEXT v(SB), 4, $0-0\n",
        "ext",
        "f",
        "N1 f",
    ),
    (
        "GLOBL f(SB), 2, $8\n",
        "TEXT f(SB), 6, $0-0\n",
        "ext",
        "f",
        "N2 f",
    ),
    (
        "TEXT f(SB), 6, $0-0\nTEXT ext(SB), 6, $0-0\n",
        "TEXT f(SB), 4, $0-0\n",
        "ext",
        "f",
        "N1 f",
    ),
];

// Data and where it's declared; the entry.
const DATA: [Row; 12] = [
    (
        "TEXT f(SB), 6, $0-0\n",
        "TEXT ext(SB), 6, $0-0\n",
        "ext",
        "f",
        "N1 ext",
    ),
    (
        "TEXT f(SB), 4, $0-0\nDATA w<>+0(SB)/1, $149\nGLOBL w<>(SB), 0, $0\n",
        "",
        "ext",
        "f",
        "N6 w",
    ),
    (
        "TEXT f(SB), 4, $0-0\nDATA w<>+0(SB)/8, $\"zzzzzzzz\"\nDATA w<>+11(SB)/8, $43\nGLOBL w<>(SB), $18\n",
        "",
        "ext",
        "f",
        "N6 w",
    ),
    (
        "TEXT f(SB), 4, $0-0\nDATA w<>+0(SB)/8, $\"zzzzzzzz\"\nDATA w<>+11(SB)/8, $43\nGLOBL w<>(SB), $19\n",
        "",
        "ext",
        "f",
        "0 0",
    ),
    (
        "TEXT f(SB), 4, $0-0\nDATA v+0(SB)/8, $f(SB)\n",
        "GLOBL v(SB), $8\n",
        "ext",
        "f",
        "0 0",
    ),
    (
        "TEXT f(SB), 4, $0-0\nDATA v+0(SB)/8, $f(SB)\nGLOBL v(SB), 2, $8\n",
        "DATA v+4(SB)/8, $1\nGLOBL v(SB), 2, $12\n",
        "ext",
        "f",
        "N6 v",
    ),
    (
        "TEXT f(SB), 4, $0-0\nDATA v+0(SB)/8, $f(SB)\nGLOBL v(SB), 2, $12\n",
        "DATA v+4(SB)/8, $1\nGLOBL v(SB), 2, $8\n",
        "ext",
        "f",
        "0 0",
    ),
    (
        "TEXT f(SB), 4, $0-0\nDATA f+0(SB)/8, $1\n",
        "",
        "ext",
        "f",
        "N6 f",
    ),
    (
        "TEXT f(SB), 4, $0-0\nDATA ext+0(SB)/8, $1\n",
        "",
        "ext",
        "f",
        "N6 ext",
    ),
    (
        "TEXT f(SB), 4, $0-0\nDATA v+0(SB)/8, $ext+8(SB)\nGLOBL v(SB), $8\n",
        "DATA w+0(SB)/8, $none(SB)\nGLOBL w(SB), $8\n",
        "ext",
        "f",
        "N2 none",
    ),
    (
        "TEXT f(SB), 4, $0-0\nGLOBL v<>(SB), $8\n",
        "DATA w+0(SB)/8, $v<>(SB)\nGLOBL w(SB), $8\n",
        "ext",
        "f",
        "N2 v",
    ),
    ("TEXT f(SB), 4, $0-0\n", "", "ext", "ext", "N2 ext"),
];

#[test]
fn definitions_are_told(rt: HostRuntime) -> Result<(), Fail> {
    expect(&rt, rt.alloc(), &DEFINED)
}

#[test]
fn data_and_entries_are_judged(rt: HostRuntime) -> Result<(), Fail> {
    expect(&rt, rt.alloc(), &DATA)
}
