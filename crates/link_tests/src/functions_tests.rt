//! Which functions of builds count, and the first of them that has no instructions; which symbol is the first that stands for nothing
//! of those to which they or the data refer.
ghost use Rattle.std.specs.Prelude.{All};
ghost use Rattle.asm_parse.specs.Valid.{IsValidUnit};

use crate::units::unit_of;
use amd64_select::Amd64;
use asm_parse::Unit;
use goasm_base::{Memory, Name, Text};
use link_functions::{UnitCode, judge_references, lay_all};
use link_names::{Names, SymbolNo};
use std::alloc::Global;
use std::process::Abort;
use std::test::Fail;
use unit_listing::ListingNo;

// The sources of three units, and what is told: of each function that counts its unit, its number there, the line of its `TEXT` and
// how many instructions it has, or the first refusal.
type Row<'a> = (&'a str, &'a str, &'a str, &'a str);

// What is told of a build in which `ext` is an outside name.
fn told(alloc: Global, units: &[Unit; 3]) -> Result<Text, Fail>
    requires { All IsValidUnit units.now }
{
    let outside = [(Name::from_slice(alloc, b"ext")?, 0x1000)];
    let names = Names::new(alloc, units, &outside)?;
    let mut text = Text::new(alloc);
    let code = match lay_all::<Amd64>(alloc, units, &names) {
        Ok(code) => code,
        Err(no) => {
            push_refusal(alloc, &mut text, no)?;
            return Ok(text);
        }
    };
    match judge_references(alloc, &names, code.as_slice()) {
        Ok(()) => {}
        Err(SymbolNo::N2(name)) => {
            text.push(b"N2 ")?;
            text.push(name.as_slice())?;
            return Ok(text);
        }
        Err(SymbolNo::Memory) => return Err(Memory)?,
    }
    for (number, unit) in code.iter().enumerate() {
        push_parts(&mut text, number as u64, unit)?;
    }
    Ok(text)
}

fn push_refusal(alloc: Global, text: &mut Text, no: ListingNo) -> Result<(), Fail> {
    if let ListingNo::Select(pos, _) = no {
        text.push_unsigned(u64::from(pos.file))?;
        text.push(b":")?;
        text.push_unsigned(u64::from(pos.line))?;
        text.push(b" ")?;
    }
    let code = format!(in alloc; "{no}")?;
    text.push(code.as_bytes())?;
    Ok(())
}

fn push_parts<I>(text: &mut Text, unit: u64, code: &UnitCode<'_, I>) -> Result<(), Memory> {
    for part in code.parts.as_slice() {
        text.push_unsigned(unit)?;
        text.push(b" ")?;
        text.push_unsigned(part.number as u64)?;
        text.push(b" ")?;
        text.push_unsigned(u64::from(part.function.pos.line))?;
        text.push(b" ")?;
        text.push_unsigned(part.laid.body.code.as_slice().len() as u64)?;
        text.push(b"; ")?;
    }
    Ok(())
}

fn expect<R: Abort>(rt: &R, alloc: Global, rows: &[Row]) -> Result<(), Fail> {
    for (first, second, third, wanted) in rows {
        let units = [
            unit_of(alloc, 0, *first)?,
            unit_of(alloc, 1, *second)?,
            unit_of(alloc, 2, *third)?,
        ];
        let found = told(alloc, &units)?.finish();
        assert_eq!(rt;
            found.as_slice(),
            wanted.as_bytes(),
            "{first:?} {second:?} {third:?}"
        );
    }
    Ok(())
}

// Functions with DUPOK, 2, of one name, in one unit or more, and ones of a name that each unit has for itself.
const COUNTED: [Row; 4] = [
    (
        "TEXT f(SB), 6, $0-0\nRET\n",
        "TEXT g(SB), 4, $0-0\nCDQ\nRET\nTEXT f(SB), 6, $0-0\nCDQ\nCDQ\nRET\n",
        "TEXT f(SB), 6, $0-0\nCDQ\nRET\nTEXT h(SB), 4, $0-0\nRET\n",
        "0 0 1 1; 1 0 1 2; 2 1 4 1; ",
    ),
    (
        "TEXT f(SB), 6, $0-0\nCDQ\nRET\nTEXT g(SB), 4, $0-0\nRET\nTEXT f(SB), 6, $0-0\nRET\n",
        "",
        "TEXT s<>(SB), 4, $0-0\nRET\n",
        "0 0 1 2; 0 1 4 1; 2 0 1 1; ",
    ),
    (
        "TEXT s<>(SB), 4, $0-0\nRET\n",
        "TEXT s<>(SB), 4, $0-0\nCDQ\nRET\n",
        "TEXT s(SB), 4, $0-0\nRET\n",
        "0 0 1 1; 1 0 1 2; 2 0 1 1; ",
    ),
    // One that doesn't count is not asked for its instructions, nor for what it refers to.
    (
        "TEXT f(SB), 6, $0-0\nRET\n",
        "TEXT f(SB), 6, $0-0\nFROB\nRET\n",
        "TEXT f(SB), 6, $0-0\nCALL none(SB)\nRET\n",
        "0 0 1 1; ",
    ),
];

// Functions without instructions.
const REFUSED: [Row; 3] = [
    (
        "TEXT f(SB), 4, $0-0\nRET\nTEXT g(SB), 4, $0-0\nCDQ\nFROB\nRET\n",
        "TEXT h(SB), 4, $0-0\nFROB\n",
        "TEXT i(SB), 4, $0-0\nFROB\n",
        "0:5 S1",
    ),
    (
        "TEXT f(SB), 4, $0-0\nCALL none(SB)\nRET\n",
        "DATA v+0(SB)/8, $none(SB)\nGLOBL v(SB), $8\n",
        "TEXT g(SB), 4, $0-0\nFROB\n",
        "2:2 S1",
    ),
    (
        "TEXT f(SB), 4, $0-0\nRET\n",
        "TEXT g(SB), 4, $2000000-0\nRET\n",
        "TEXT h(SB), 4, $0-0\nFROB\n",
        "RW1",
    ),
];

// What stands for nothing. Behind a statement the stack is grown by the routine `runtime.morestack_noctxt`, with NEEDCTXT, 64, by
// `runtime.morestack`: the block that calls it is the last of a function.
const UNDEFINED: [Row; 8] = [
    (
        "TEXT f(SB), 4, $0-0\nCALL ext(SB)\nRET\n",
        "DATA v+0(SB)/8, $none(SB)\nGLOBL v(SB), $8\n",
        "TEXT g(SB), 4, $0-0\nCALL other(SB)\nRET\n",
        "N2 none",
    ),
    (
        "TEXT f(SB), 4, $0-0\nCALL v(SB)\nCALL g(SB)\nRET\n",
        "DATA v+0(SB)/8, $none(SB)\nGLOBL v(SB), $8\nTEXT g(SB), 4, $0-0\nRET\nTEXT h(SB), 4, $0-0\nCALL f(SB)\nCALL other(SB)\nRET\n",
        "TEXT i(SB), 4, $0-0\nCALL third(SB)\nRET\n",
        "N2 other",
    ),
    (
        "TEXT f(SB), 4, $0-0\nCALL g(SB)\nRET\n",
        "TEXT s<>(SB), 4, $0-0\nRET\nTEXT g(SB), 4, $0-0\nCALL s<>(SB)\nRET\n",
        "TEXT h(SB), 4, $0-0\nCALL s<>(SB)\nRET\n",
        "N2 s",
    ),
    (
        "TEXT f(SB), 4, $0-0\nRET\n",
        "TEXT g(SB), 0, $8-0\nCALL f(SB)\nRET\n",
        "DATA v+0(SB)/8, $none(SB)\nGLOBL v(SB), $8\n",
        "N2 runtime.morestack_noctxt",
    ),
    (
        "TEXT f(SB), 64, $8-0\nCALL ext(SB)\nRET\n",
        "TEXT runtime·morestack_noctxt(SB), 4, $0-0\nRET\n",
        "TEXT g(SB), 4, $0-0\nCALL other(SB)\nRET\n",
        "N2 runtime.morestack",
    ),
    (
        "TEXT f(SB), 0, $8-0\nCALL none(SB)\nRET\n",
        "",
        "",
        "N2 none",
    ),
    (
        "TEXT f(SB), 0, $8-0\nCALL ext(SB)\nRET\n",
        "TEXT runtime·morestack_noctxt<>(SB), 4, $0-0\nRET\n",
        "",
        "N2 runtime.morestack_noctxt",
    ),
    (
        "TEXT f(SB), 4, $8-0\nCALL ext(SB)\nRET\n",
        "DATA v+0(SB)/8, $f(SB)\nGLOBL v(SB), $8\n",
        "DATA w+0(SB)/8, $v+4(SB)\nDATA w+8(SB)/8, $last(SB)\nGLOBL w(SB), $16\n",
        "N2 last",
    ),
];

#[test]
fn functions_that_count_are_laid_out(rt: HostRuntime) -> Result<(), Fail> {
    expect(&rt, rt.alloc(), &COUNTED)
}

#[test]
fn the_first_function_is_refused(rt: HostRuntime) -> Result<(), Fail> {
    expect(&rt, rt.alloc(), &REFUSED)
}

#[test]
fn the_first_name_without_meaning_is_told(rt: HostRuntime) -> Result<(), Fail> {
    expect(&rt, rt.alloc(), &UNDEFINED)
}
