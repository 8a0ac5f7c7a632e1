// The forms of lines.
ghost use Rattle.std.specs.Prelude.{◌≡◌, ◌++◌, IfOk, OnOk, OnErr};
ghost use Rattle.goasm_text.specs.Lines as spec;
ghost use Rattle.goasm_text.specs.Lines.{AppendsFront, address_line, offset_line, place_text, place_line, with_number};

use goasm_base::{Bytes, Memory, Name, Pos, Text};
use std::alloc::Global;

/// The name of the file of this number; empty where there is none.
pub fn name_in(files: &[Name], number: usize) -> &[u8]
    ensures { result.now ≡ spec.name_in files.now number }
{
    match files.get(number) {
        Some(name) => name.as_slice(),
        None => b"",
    }
}

/// Appends `FILE:LINE`. `files` has the name of each file at the file's number; a number that it doesn't have has the
/// empty name. Where memory is wanting, a front of it may have been appended.
pub fn push_place(text: &mut Text, files: &[Name], at: Pos) -> Result<(), Memory>
    ensures ok { OnOk result (text.new ≡ text.old ++ place_text files.now at) }
    ensures err { OnErr result (AppendsFront text.old text.new (place_text files.now at)) }
{
    text.push(name_in(files, at.file as usize))?;
    text.push(b":")?;
    text.push_unsigned(u64::from(at.line))
}

/// `FILE:LINE: CODE`
pub fn at_place(alloc: Global, files: &[Name], at: Pos, code: &[u8]) -> Result<Bytes, Memory>
    ensures { IfOk result (λ line. line ≡ place_line files.now at code.now) }
{
    let mut line = Text::new(alloc);
    push_place(&mut line, files, at)?;
    line.push(b": ")?;
    line.push(code)?;
    line.push(b"\n")?;
    Ok(line.finish())
}

/// `FILE:LINE: CODE NUMBER`
pub fn at_place_with(
    alloc: Global,
    files: &[Name],
    at: Pos,
    code: &[u8],
    number: u64,
) -> Result<Bytes, Memory>
    ensures { IfOk result (λ line. line ≡ place_line files.now at (with_number code.now number)) }
{
    let mut line = Text::new(alloc);
    push_place(&mut line, files, at)?;
    line.push(b": ")?;
    line.push(code)?;
    line.push(b" ")?;
    line.push_unsigned(number)?;
    line.push(b"\n")?;
    Ok(line.finish())
}

/// `FILE: CODE at OFFSET`
pub fn at_offset(alloc: Global, name: &[u8], code: &[u8], offset: u64) -> Result<Bytes, Memory>
    ensures { IfOk result (λ line. line ≡ offset_line name.now code.now offset) }
{
    let mut line = Text::new(alloc);
    line.push(name)?;
    line.push(b": ")?;
    line.push(code)?;
    line.push(b" at ")?;
    line.push_unsigned(offset)?;
    line.push(b"\n")?;
    Ok(line.finish())
}

/// `FILE: CODE at ADDRESS`
pub fn at_address(alloc: Global, name: &[u8], code: &[u8], address: u64) -> Result<Bytes, Memory>
    ensures { IfOk result (λ line. line ≡ address_line name.now code.now address) }
{
    let mut line = Text::new(alloc);
    line.push(name)?;
    line.push(b": ")?;
    line.push(code)?;
    line.push(b" at ")?;
    line.push_hex(address)?;
    line.push(b"\n")?;
    Ok(line.finish())
}
