//! Units of sources.
ghost use Rattle.std.specs.Prelude.{IfOk};
ghost use Rattle.asm_parse.specs.Valid.{IsValidUnit};

use asm_lex::lex;
use asm_parse::{ParseNo, Unit, parse};
use asm_target::Target;
use goasm_base::Text;
use std::alloc::Global;
use std::test::Fail;

/// The lines, each with its end.
pub fn joined(alloc: Global, lines: &[&str]) -> Result<Text, Fail> {
    let mut text = Text::new(alloc);
    for line in lines {
        text.push(line.as_bytes())?;
        text.push(b"\n")?;
    }
    Ok(text)
}

/// The unit of a source, the file of this number.
pub fn parsed<T: Target>(alloc: Global, file: u32, source: &[u8]) -> Result<Unit, Fail>
    ensures { IfOk result IsValidUnit }
{
    let tokens = lex(alloc, file, source)?;
    if tokens.list.as_slice().len() > 4_000_000 {
        return Err(ParseNo::Memory)?;
    }
    Ok(parse(alloc, &tokens, |name: &[u8]| T::is_word(name))?)
}

/// The unit of a source of these lines.
pub fn unit_of<T: Target>(alloc: Global, file: u32, lines: &[&str]) -> Result<Unit, Fail>
    ensures { IfOk result IsValidUnit }
{
    let source = joined(alloc, lines)?.finish();
    parsed::<T>(alloc, file, source.as_slice())
}
