//! What a statement becomes, as a text.
use crate::shapes::frame;
use amd64_select::{Amd64, Listed};
use asm_lex::lex;
use asm_parse::{ParseNo, Symbol, Unit, parse};
use asm_target::{Part, Picked, Processor, Refer, SelectNo, Site, Target, To};
use goasm_base::{Memory, Stmt, Text};
use std::alloc::Global;
use std::process::Abort;
use std::test::Fail;

// Names that begin with a capital are words here, so that a statement can name registers that there aren't.
fn is_word(name: &[u8]) -> bool {
    match name {
        [first, ..] => first.is_ascii_uppercase(),
        [] => false,
    }
}

// A source with the statement, a RET and `end: RET`, which is the statement of number 2. The function is the symbol of number 0.
fn parsed(alloc: Global, statement: &str) -> Result<Unit, Fail> {
    let mut source = Vec::new(alloc);
    source.extend_from_slice(b"TEXT f(SB), 4, $0-0\n")?;
    source.extend_from_slice(statement.as_bytes())?;
    source.extend_from_slice(b"\nRET\nend: RET\n")?;
    let tokens = lex(alloc, 0, source.as_slice())?;
    if tokens.list.as_slice().len() > 4_000_000 {
        return Err(ParseNo::Memory)?;
    }
    Ok(parse(alloc, &tokens, is_word)?)
}

// What an instruction refers to: ` -> NAME+OFF`, or ` -> #NUMBER` for a statement.
fn push_refer(text: &mut Text, symbols: &[Symbol], refer: Refer) -> Result<(), Memory> {
    text.push(if refer.part == Part::Whole {
        b" -> "
    } else {
        b" part -> "
    })?;
    match refer.to {
        To::Symbol(number, off) => {
            if let Some(symbol) = symbols.get(number as usize) {
                text.push(symbol.name.as_slice())?;
            }
            text.push(b"+")?;
            text.push_decimal(off)
        }
        To::Stmt(number) => {
            text.push(b"#")?;
            text.push_unsigned(u64::from(number))
        }
        _ => text.push(b"?"),
    }
}

// The instructions as a disassembler shows them at address 0.
fn push_code(
    alloc: Global,
    text: &mut Text,
    symbols: &[Symbol],
    code: &[Picked<Listed>],
) -> Result<(), Memory> {
    for (k, pick) in code.iter().enumerate() {
        if k > 0 {
            text.push(b"; ")?;
        }
        text.push(Amd64::show(alloc, &pick.instr, 0)?.as_slice())?;
        if let Some(refer) = pick.refer {
            push_refer(text, symbols, refer)?;
        }
    }
    Ok(())
}

// The instructions of a statement, or the code of its refusal.
fn push_selected(
    alloc: Global,
    text: &mut Text,
    symbols: &[Symbol],
    stmt: &Stmt,
    site: (u32, u32),
) -> Result<(), Memory> {
    let (depth, total) = site;
    let frame = frame(total);
    match Amd64::select(alloc, stmt, Site { depth, frame }) {
        Ok(code) => push_code(alloc, text, symbols, code.as_slice()),
        Err(no) => text.push(code_of(no)),
    }
}

fn code_of(no: SelectNo) -> &'static [u8] {
    match no {
        SelectNo::S1 => b"S1",
        SelectNo::S2 => b"S2",
        SelectNo::S3 => b"S3",
        SelectNo::S4 => b"S4",
        SelectNo::Memory => b"Memory",
    }
}

/// At a depth of 16, in the frame of 16 bytes.
pub const SITE: (u32, u32) = (16, 16);

/// What a statement becomes, at a depth and in a frame of so many bytes.
pub fn selected(alloc: Global, statement: &str, site: (u32, u32)) -> Result<Text, Fail> {
    let unit = parsed(alloc, statement)?;
    let mut text = Text::new(alloc);
    if let [function, ..] = unit.functions.as_slice()
        && let [stmt, ..] = function.stmts.as_slice()
    {
        push_selected(alloc, &mut text, unit.symbols.as_slice(), stmt, site)?;
    }
    Ok(text)
}

/// Each row's statement becomes what stands behind it.
pub fn expect_at<R: Abort>(
    rt: &R,
    alloc: Global,
    site: (u32, u32),
    rows: &[(&str, &str)],
) -> Result<(), Fail> {
    for (statement, wanted) in rows {
        let found = selected(alloc, *statement, site)?.finish();
        assert_eq!(rt; found.as_slice(), wanted.as_bytes(), "{statement}");
    }
    Ok(())
}

/// So at the usual site.
pub fn expect<R: Abort>(rt: &R, alloc: Global, rows: &[(&str, &str)]) -> Result<(), Fail> {
    expect_at(rt, alloc, SITE, rows)
}

/// Each statement is refused for this cause.
pub fn expect_refused<R: Abort>(
    rt: &R,
    alloc: Global,
    wanted: &str,
    statements: &[&str],
) -> Result<(), Fail> {
    for statement in statements {
        let found = selected(alloc, *statement, SITE)?.finish();
        assert_eq!(rt; found.as_slice(), wanted.as_bytes(), "{statement}");
    }
    Ok(())
}
