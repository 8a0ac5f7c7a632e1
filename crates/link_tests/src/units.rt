//! Units of sources.
ghost use Rattle.std.specs.Prelude.{IfOk};
ghost use Rattle.asm_parse.specs.Valid.{IsValidUnit};

use amd64_select::Amd64;
use asm_lex::lex;
use asm_parse::{ParseNo, Unit, parse};
use asm_target::Target;
use std::alloc::Global;
use std::test::Fail;

/// The unit of a source for amd64, the file of this number.
pub fn unit_of(alloc: Global, file: u32, source: &str) -> Result<Unit, Fail>
    ensures { IfOk result IsValidUnit }
{
    let tokens = lex(alloc, file, source.as_bytes())?;
    if tokens.list.as_slice().len() > 4_000_000 {
        return Err(ParseNo::Memory)?;
    }
    Ok(parse(alloc, &tokens, |name: &[u8]| Amd64::is_word(name))?)
}
