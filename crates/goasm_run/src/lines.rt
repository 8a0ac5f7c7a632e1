// The lines that a command writes to the standard error.
ghost use Rattle.std.specs.Prelude.{◌≡◌, ◌≢◌, IfOk};
ghost use Rattle.goasm_text.specs.Lines.{chain_line, check_line, dump_line, table_line};
ghost use Rattle.image_rules.specs.declared.check_no.CheckNo.TheVariants as checks;
ghost use Rattle.text_chain.specs.declared.stack.ChainNo.TheVariants as chains;
ghost use Rattle.goasm_run.specs.Lines.{unread_line, too_long_line, no_function_line, list_line};

use goasm_base::{Bytes, Memory, Name, Text};
use goasm_text::{Refusal, line_of};
use image_rules::CheckNo;
use machine_dump::DumpNo;
use pclntab::TableNo;
use std::alloc::Global;
use text_chain::ChainNo;

pub const WORDS: &[u8] = b"goasm: words\n";

pub const MEMORY: &[u8] = b"goasm: memory\n";

pub fn unread(alloc: Global, name: &[u8]) -> Result<Bytes, Memory>
    ensures { IfOk result (λ line. line ≡ unread_line name.now) }
{
    let mut line = Text::new(alloc);
    line.push(b"goasm: cannot read ")?;
    line.push(name)?;
    line.push(b"\n")?;
    Ok(line.finish())
}

pub fn too_long(alloc: Global, name: &[u8]) -> Result<Bytes, Memory>
    ensures { IfOk result (λ line. line ≡ too_long_line name.now) }
{
    let mut line = Text::new(alloc);
    line.push(name)?;
    line.push(b": too long\n")?;
    Ok(line.finish())
}

pub fn no_function(alloc: Global, name: &[u8], pc: u64) -> Result<Bytes, Memory>
    ensures { IfOk result (λ line. line ≡ no_function_line name.now pc) }
{
    let mut line = Text::new(alloc);
    line.push(name)?;
    line.push(b": no function at ")?;
    line.push_hex(pc)?;
    line.push(b"\n")?;
    Ok(line.finish())
}

pub fn list_refused(alloc: Global, name: &[u8], number: u32) -> Result<Bytes, Memory>
    ensures { IfOk result (λ line. line ≡ list_line name.now number) }
{
    let mut line = Text::new(alloc);
    line.push(name)?;
    line.push(b":")?;
    line.push_unsigned(u64::from(number))?;
    line.push(b": Q1\n")?;
    Ok(line.finish())
}

pub fn table(alloc: Global, name: &[u8], fault: TableNo) -> Result<Bytes, Memory>
    ensures { IfOk result (λ line. line ≡ table_line name.now fault) }
{
    let names = [Name::from_slice(alloc, name)?];
    line_of(alloc, &Refusal::Table(fault), names.as_slice())
}

pub fn image(alloc: Global, name: &[u8], refusal: CheckNo) -> Result<Bytes, Memory>
    requires { refusal ≢ checks.Memory }
    ensures { IfOk result (λ line. line ≡ check_line name.now refusal) }
{
    let names = [Name::from_slice(alloc, name)?];
    line_of(alloc, &Refusal::Check(refusal), names.as_slice())
}

pub fn dump(alloc: Global, name: &[u8], fault: DumpNo) -> Result<Bytes, Memory>
    ensures { IfOk result (λ line. line ≡ dump_line name.now fault) }
{
    let names = [Name::from_slice(alloc, name)?];
    line_of(alloc, &Refusal::Dump(fault), names.as_slice())
}

pub fn chain(alloc: Global, name: &[u8], refusal: ChainNo) -> Result<Bytes, Memory>
    requires { refusal ≢ chains.Memory }
    ensures { IfOk result (λ line. line ≡ chain_line name.now refusal) }
{
    let names = [Name::from_slice(alloc, name)?];
    line_of(alloc, &Refusal::Chain(refusal), names.as_slice())
}
