ghost use Rattle.std.specs.Prelude.{◌≡◌, ◌<◌, ◌^◌, take, IfOk};
ghost use Rattle.asm_grammar.specs.Reader.{Reads, IsFound};
ghost use Rattle.asm_grammar.specs.Directives as spec;

use crate::cause::Cause;
use crate::draft::SymbolName;
use crate::expression::read_expression;
use crate::operand::{read_offset, read_width};
use crate::reader::Reader;
use crate::stop::Stop;
use crate::texts::bytes_of;
use crate::word::Word;
use goasm_base::{Bytes, Memory};
use std::alloc::Global;

/// `TEXT symbol(SB), flags, $locals-args`: a function begins.
#[derive(Drop)]
pub struct TextLine<'a> {
    pub symbol: SymbolName<'a>,
    pub flags: u32,
    pub locals: u32,
    /// The size of the arguments, where it is written.
    pub args: Option<u32>,
}

/// `DATA symbol+off(SB)/width, $value`: bytes of a symbol.
#[derive(Drop)]
pub struct DataLine<'a> {
    pub symbol: SymbolName<'a>,
    pub off: u32,
    pub value: DataValue<'a>,
}

/// What stands in a symbol.
#[derive(Drop)]
pub enum DataValue<'a> {
    Bytes(Bytes),
    /// Eight bytes: the address of a symbol with an offset.
    Address { symbol: SymbolName<'a>, off: i64 },
}

/// `GLOBL symbol(SB), flags, $size`: a symbol is declared.
#[derive(Drop)]
pub struct GlobalLine<'a> {
    pub symbol: SymbolName<'a>,
    pub flags: u32,
    pub size: u64,
}

const NOSPLIT: u32 = 4;

const NOFRAME: u32 = 512;

/// Reads a `TEXT` behind its word.
#[tactic(auto, unfolding(crate::specs::Directives::text))]
pub fn read_text<'a>(reader: &mut Reader<'_, 'a>) -> Result<TextLine<'a>, Stop>
    ensures read { Reads spec.text reader.old result reader.new }
    ensures sized { IfOk result (λ line. spec.IsSized line) }
{
    let symbol = read_symbol(reader)?;
    reader.expect(b",")?;
    let flags = read_flags(reader)?;
    reader.expect(b",")?;
    reader.expect(b"$")?;
    let locals = read_locals(reader, flags)?;
    let args = read_args(reader, flags)?;
    Ok(TextLine {
        symbol,
        flags,
        locals,
        args,
    })
}

#[tactic(auto, unfolding(crate::specs::Directives::locals))]
fn read_locals(reader: &mut Reader<'_, '_>, flags: u32) -> Result<u32, Stop>
    ensures read { Reads (spec.locals flags) reader.old result reader.new }
    ensures sized { IfOk result (λ locals. spec.AreLocals flags locals) }
{
    let locals = read_size(reader)?;
    if locals % 8 != 0 || (locals != 0 && has(flags, NOFRAME)) {
        return Err(Stop::Form);
    }
    Ok(locals)
}

#[tactic(auto, unfolding(crate::specs::Directives::args))]
fn read_args(reader: &mut Reader<'_, '_>, flags: u32) -> Result<Option<u32>, Stop>
    ensures read { Reads (spec.args flags) reader.old result reader.new }
    ensures sized { IfOk result (λ args. spec.AreArguments args) }
{
    if reader.eat(b"-") {
        let size = read_size(reader)?;
        return Ok(Some(size));
    }
    if !has(flags, NOSPLIT) {
        reader.note(Cause::ArgumentSizeMissing);
    }
    Ok(None)
}

fn has(flags: u32, flag: u32) -> bool
    ensures { result ≡ spec.has flags flag }
{
    flags & flag != 0
}

/// Reads a `DATA` behind its word.
#[tactic(auto, unfolding(crate::specs::Directives::value))]
pub fn read_data<'a>(alloc: Global, reader: &mut Reader<'_, 'a>) -> Result<DataLine<'a>, Stop>
    ensures { Reads spec.value reader.old result reader.new }
{
    let (symbol, off) = read_place(reader)?;
    if off > u64::from(u32::MAX) {
        return Err(Stop::Form);
    }
    reader.expect(b"/")?;
    let width = read_width(reader)?;
    reader.expect(b",")?;
    reader.expect(b"$")?;
    let value = read_value(alloc, reader, width)?;
    Ok(DataLine {
        symbol,
        off: off as u32,
        value,
    })
}

#[tactic(auto, unfolding(crate::specs::Directives::data_value))]
fn read_value<'a>(
    alloc: Global,
    reader: &mut Reader<'_, 'a>,
    width: u8,
) -> Result<DataValue<'a>, Stop>
    ensures { Reads (spec.data_value width) reader.old result reader.new }
{
    if let Some(text) = reader.eat_text() {
        return text_value(alloc, text, width);
    }
    if reader.sees_word() {
        return address_value(reader, width);
    }
    let value = read_expression(reader)?;
    Ok(DataValue::Bytes(low_bytes(alloc, value, width)?))
}

fn text_value<'a>(alloc: Global, text: Word<'a>, width: u8) -> Result<DataValue<'a>, Stop>
    ensures { IsFound (spec.text_value text.entry width) result }
{
    let bytes = bytes_of(alloc, text.as_slice())?;
    if bytes.as_slice().len() != width as usize {
        return Err(Stop::Form);
    }
    Ok(DataValue::Bytes(bytes))
}

#[tactic(auto, unfolding(crate::specs::Directives::address_value))]
fn address_value<'a>(reader: &mut Reader<'_, 'a>, width: u8) -> Result<DataValue<'a>, Stop>
    ensures { Reads (spec.address_value width) reader.old result reader.new }
{
    if width != 8 {
        return Err(Stop::Form);
    }
    let (symbol, off) = read_place(reader)?;
    Ok(DataValue::Address {
        symbol,
        off: off.cast_signed(),
    })
}

// The lowest bytes of a number, the lowest one first.
fn low_bytes(alloc: Global, value: u64, width: u8) -> Result<Bytes, Memory>
    ensures { IfOk result (λ bytes. bytes ≡ spec.low_bytes width value) }
{
    let bytes = value.to_le_bytes();
    Ok(Bytes::new(Vec::from_slice(alloc, front(&bytes, width as usize))?))
}

fn front(bytes: &[u8], count: usize) -> &[u8]
    ensures { result.now ≡ take count bytes.now }
{
    if count <= bytes.len() {
        &bytes[..count]
    } else {
        bytes
    }
}

/// Reads a `GLOBL` behind its word.
#[tactic(auto, unfolding(crate::specs::Directives::global))]
pub fn read_global<'a>(reader: &mut Reader<'_, 'a>) -> Result<GlobalLine<'a>, Stop>
    ensures { Reads spec.global reader.old result reader.new }
{
    let symbol = read_symbol(reader)?;
    reader.expect(b",")?;
    let flags = read_global_flags(reader)?;
    let size = read_expression(reader)?;
    Ok(GlobalLine {
        symbol,
        flags,
        size,
    })
}

// The flags of a `GLOBL`, where they aren't left out, and the `$` of its size.
#[tactic(auto, unfolding(crate::specs::Directives::global_flags))]
fn read_global_flags(reader: &mut Reader<'_, '_>) -> Result<u32, Stop>
    ensures { Reads spec.global_flags reader.old result reader.new }
{
    if reader.eat(b"$") {
        return Ok(0);
    }
    let flags = read_flags(reader)?;
    reader.expect(b",")?;
    reader.expect(b"$")?;
    Ok(flags)
}

// `name(SB)` or `name<>(SB)`.
#[tactic(auto, unfolding(crate::specs::Directives::symbol))]
fn read_symbol<'a>(reader: &mut Reader<'_, 'a>) -> Result<SymbolName<'a>, Stop>
    ensures { Reads spec.symbol reader.old result reader.new }
{
    let name = reader.word()?;
    let fixed = reader.eat(b"<>");
    expect_static_base(reader)?;
    Ok(SymbolName { name, fixed })
}

// `name+e(SB)` or `name<>+e(SB)`.
#[tactic(auto, unfolding(crate::specs::Directives::place))]
fn read_place<'a>(reader: &mut Reader<'_, 'a>) -> Result<(SymbolName<'a>, u64), Stop>
    ensures { Reads spec.place reader.old result reader.new }
{
    let name = reader.word()?;
    let fixed = reader.eat(b"<>");
    let off = read_offset(reader)?;
    expect_static_base(reader)?;
    Ok((SymbolName { name, fixed }, off))
}

#[tactic(auto, unfolding(crate::specs::Directives::static_base))]
fn expect_static_base(reader: &mut Reader<'_, '_>) -> Result<(), Stop>
    ensures { Reads spec.static_base reader.old result reader.new }
{
    reader.expect(b"(")?;
    let base = reader.word()?;
    if base.as_slice() != b"SB".as_slice() {
        return Err(Stop::Form);
    }
    reader.expect(b")")
}

#[tactic(auto, unfolding(crate::specs::Directives::flags))]
fn read_flags(reader: &mut Reader<'_, '_>) -> Result<u32, Stop>
    ensures { Reads spec.flags reader.old result reader.new }
{
    let flags = read_expression(reader)?;
    if flags > u64::from(u32::MAX) {
        return Err(Stop::Form);
    }
    Ok(flags as u32)
}

// A size in a `TEXT`: a single number below 2^31.
#[tactic(auto, unfolding(crate::specs::Directives::size))]
fn read_size(reader: &mut Reader<'_, '_>) -> Result<u32, Stop>
    ensures read { Reads spec.size reader.old result reader.new }
    ensures small { IfOk result (λ size. size < 2 ^ 31) }
{
    let size = reader.number()?;
    if size >= 0x8000_0000 {
        return Err(Stop::Form);
    }
    Ok(size as u32)
}
