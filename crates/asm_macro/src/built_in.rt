ghost use Rattle.std.specs.Prelude.{◌≡◌, ◌++◌, ◌∷◌, [], IfOk, OnOk, IfErr, Ok, None, codes};
ghost use Rattle.std.specs.Option.{option_map};
ghost use Rattle.asm_macro.specs.Refusals.{Refuses};
ghost use Rattle.asm_macro.specs.BuiltIn as spec;
ghost use Rattle.asm_macro.specs.Views.{definitions_of, rows_in, AreBuiltIn};

use crate::macros::{Macro, Macros};
use crate::refusal::MacroNo;
use asm_lex::{Kind, Spelling, Token};
use goasm_base::{List, Memory, Pos};
use std::alloc::Global;

/// A file that every build may include.
#[derive(Clone, Copy)]
pub enum BuiltIn {
    Textflag,
    Funcdata,
}

/// A line of a built-in file: a name and the body that it gets.
#[derive(Drop)]
pub struct Row<'a> {
    pub name: Spelling<'a>,
    pub body: List<Token<'a>>,
}

/// The built-in files.
#[derive(Drop)]
pub struct Rows<'a> {
    pub textflag: Vec<Row<'a>>,
    pub funcdata: Vec<Row<'a>>,
}

/// The built-in file of this name.
#[tactic(auto, unfolding(crate::specs::BuiltIn::built_in_named))]
pub fn built_in_named(name: &[u8]) -> Option<BuiltIn>
    ensures { result ≡ spec.built_in_named name.now }
{
    if name == b"textflag.h".as_slice() {
        Some(BuiltIn::Textflag)
    } else if name == b"funcdata.h".as_slice() {
        Some(BuiltIn::Funcdata)
    } else {
        None
    }
}

impl<'a> Rows<'a> {
    pub fn new(alloc: Global) -> Result<Rows<'a>, Memory>
        ensures { IfOk result (λ rows. AreBuiltIn rows) }
    {
        Ok(Rows {
            textflag: textflag(alloc)?,
            funcdata: funcdata(alloc)?,
        })
    }

    /// The lines of a file.
    pub fn of(&self, file: BuiltIn) -> &[Row<'a>]
        ensures { result.now ≡ rows_in self.now file }
    {
        match file {
            BuiltIn::Textflag => self.textflag.as_slice(),
            BuiltIn::Funcdata => self.funcdata.as_slice(),
        }
    }
}

fn add_flag<'a>(
    alloc: Global,
    rows: &mut Vec<Row<'a>>,
    name: &'a [u8],
    value: u64,
    text: &'a [u8],
) -> Result<(), Memory>
    ensures { OnOk result (rows.new.items ≡ rows.old.items ++ spec.flag name.now value text.now ∷ []) }
{
    let mut body = Vec::new(alloc);
    body.push(Token {
        pos: Pos { file: 0, line: 1 },
        glued: false,
        kind: Kind::Number(value),
        text: Spelling::new(text),
    })?;
    rows.push(Row {
        name: Spelling::new(name),
        body: List::new(body),
    })?;
    Ok(())
}

#[tactic(auto, unfolding(crate::specs::BuiltIn::textflag))]
fn textflag<'a>(alloc: Global) -> Result<Vec<Row<'a>>, Memory>
    ensures { IfOk result (λ rows. rows.items ≡ spec.textflag) }
{
    let mut rows = Vec::new(alloc);
    add_flag(alloc, &mut rows, b"NOPROF", 1, b"1")?;
    add_flag(alloc, &mut rows, b"DUPOK", 2, b"2")?;
    add_flag(alloc, &mut rows, b"NOSPLIT", 4, b"4")?;
    add_flag(alloc, &mut rows, b"RODATA", 8, b"8")?;
    add_flag(alloc, &mut rows, b"NOPTR", 16, b"16")?;
    add_flag(alloc, &mut rows, b"WRAPPER", 32, b"32")?;
    add_flag(alloc, &mut rows, b"NEEDCTXT", 64, b"64")?;
    add_flag(alloc, &mut rows, b"TLSBSS", 256, b"256")?;
    add_flag(alloc, &mut rows, b"NOFRAME", 512, b"512")?;
    add_flag(alloc, &mut rows, b"REFLECTMETHOD", 1024, b"1024")?;
    add_flag(alloc, &mut rows, b"TOPFRAME", 2048, b"2048")?;
    add_flag(alloc, &mut rows, b"ABIWRAPPER", 4096, b"4096")?;
    Ok(rows)
}

fn add_empty<'a>(alloc: Global, rows: &mut Vec<Row<'a>>, name: &'a [u8]) -> Result<(), Memory>
    ensures { OnOk result (rows.new.items ≡ rows.old.items ++ spec.empty name.now ∷ []) }
{
    rows.push(Row {
        name: Spelling::new(name),
        body: List::new(Vec::new(alloc)),
    })?;
    Ok(())
}

#[tactic(auto, unfolding(crate::specs::BuiltIn::funcdata))]
fn funcdata<'a>(alloc: Global) -> Result<Vec<Row<'a>>, Memory>
    ensures { IfOk result (λ rows. rows.items ≡ spec.funcdata) }
{
    let mut rows = Vec::new(alloc);
    add_empty(alloc, &mut rows, b"GO_ARGS")?;
    add_empty(alloc, &mut rows, b"NO_LOCAL_POINTERS")?;
    add_empty(alloc, &mut rows, b"GO_RESULTS_INITIALIZED")?;
    Ok(rows)
}

fn is_defined_by(file: BuiltIn, origin: Option<BuiltIn>) -> bool
    ensures { result ≡ spec.is_defined_by file origin }
{
    matches!(
        (file, origin),
        (BuiltIn::Textflag, Some(BuiltIn::Textflag)) | (BuiltIn::Funcdata, Some(BuiltIn::Funcdata))
    )
}

/// Defines what a built-in file defines. A name that it has defined before is passed over.
#[tactic(auto, unfolding(crate::specs::BuiltIn::with_rows))]
pub fn define_rows<'t, 'a>(
    macros: &mut Macros<'_, 't, 'a>,
    file: BuiltIn,
    rows: &'t [Row<'a>],
    pos: Pos,
) -> Result<(), MacroNo>
    ensures ok { OnOk result
        (spec.with_rows file pos (definitions_of macros.old) rows.now ≡ Ok (definitions_of macros.new)) }
    ensures err { IfErr result (λ no. Refuses (spec.with_rows file pos (definitions_of macros.old) rows.now) no) }
{
    for row in rows {
        match macros.get(row.name.as_slice()) {
            Some(there) => {
                if !is_defined_by(file, there.origin) {
                    return Err(MacroNo::M6(pos));
                }
            }
            None => macros.define(
                row.name.as_slice(),
                Macro {
                    parameters: None,
                    body: row.body.as_slice(),
                    origin: Some(file),
                },
            )?,
        }
    }
    Ok(())
}
