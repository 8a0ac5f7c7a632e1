ghost use Rattle.asm_grammar.specs.Reader.{Reads, IsFound};
ghost use Rattle.asm_grammar.specs.Operands as spec;

use crate::cause::Cause;
use crate::draft::{Draft, SymbolName};
use crate::expression::read_expression;
use crate::reader::Reader;
use crate::stop::Stop;
use crate::word::Word;

/// Reads an operand.
#[tactic(auto, unfolding(crate::specs::Operands::operand))]
pub fn read_operand<'a>(reader: &mut Reader<'_, 'a>) -> Result<Draft<'a>, Stop>
    ensures { Reads spec.operand reader.old result reader.new }
{
    let address = reader.eat(b"$");
    match reader.eat_word() {
        Some(name) => {
            if address {
                named(reader, true, name)
            } else {
                behind_name(reader, name)
            }
        }
        None => {
            if address {
                constant(reader)
            } else {
                memory(reader)
            }
        }
    }
}

// What begins with a name that has no `$` before it.
#[tactic(auto, unfolding(crate::specs::Operands::behind_name))]
fn behind_name<'a>(reader: &mut Reader<'_, 'a>, name: Word<'a>) -> Result<Draft<'a>, Stop>
    ensures { Reads (spec.behind_name name.entry) reader.old result reader.new }
{
    if reader.is_over() {
        return Ok(Draft::Bare(name));
    }
    match reader.eat_shift() {
        Some(kind) => shifted(reader, kind, name),
        None => named(reader, false, name),
    }
}

// `R<<n` and its kin, behind the sign.
#[tactic(auto, unfolding(crate::specs::Operands::shifted))]
fn shifted<'a>(reader: &mut Reader<'_, 'a>, kind: u8, name: Word<'a>) -> Result<Draft<'a>, Stop>
    ensures { Reads (spec.shifted kind name.entry) reader.old result reader.new }
{
    let amount = read_expression(reader)?;
    if amount > 255 {
        return Err(Stop::Form);
    }
    Ok(Draft::Shifted {
        reg: name,
        kind,
        amount: amount as u8,
    })
}

// `name+e(SB)` and its kin, behind the name.
#[tactic(auto, unfolding(crate::specs::Operands::named))]
fn named<'a>(reader: &mut Reader<'_, 'a>, address: bool, name: Word<'a>) -> Result<Draft<'a>, Stop>
    ensures { Reads (spec.named address name.entry) reader.old result reader.new }
{
    let fixed = reader.eat(b"<>");
    let off = read_offset(reader)?.cast_signed();
    reader.expect(b"(")?;
    let base = reader.word()?;
    reader.expect(b")")?;
    based(name, fixed, off, address, base)
}

// What a name with an offset means behind this base.
fn based<'a>(
    name: Word<'a>,
    fixed: bool,
    off: i64,
    address: bool,
    base: Word<'a>,
) -> Result<Draft<'a>, Stop>
    ensures { IsFound (spec.based name.entry fixed off address base.entry) result }
{
    match base.as_slice() {
        b"SB" => Ok(Draft::Symbol {
            symbol: SymbolName { name, fixed },
            off,
            address,
        }),
        b"FP" if !fixed => Ok(Draft::Arg { name, off, address }),
        b"SP" if !fixed => Ok(Draft::Auto { off, address }),
        _ => Err(Stop::Form),
    }
}

/// Reads `+e` or `-e` where one of them is next; otherwise it is 0.
#[tactic(auto, unfolding(crate::specs::Operands::offset))]
pub fn read_offset(reader: &mut Reader<'_, '_>) -> Result<u64, Stop>
    ensures { Reads spec.offset reader.old result reader.new }
{
    if reader.sees_offset() {
        read_expression(reader)
    } else {
        Ok(0)
    }
}

// A constant behind its `$`. With a base it would be an argument's address without a name.
#[tactic(auto, unfolding(crate::specs::Operands::constant))]
fn constant<'a>(reader: &mut Reader<'_, 'a>) -> Result<Draft<'a>, Stop>
    ensures { Reads spec.constant reader.old result reader.new }
{
    let (_, value) = read_distance(reader)?;
    if reader.eat(b"(") {
        let base = reader.word()?;
        if base.as_slice() != b"FP".as_slice() {
            return Err(Stop::Form);
        }
        reader.expect(b")")?;
        reader.note(Cause::NamelessArgument);
    }
    Ok(Draft::Imm(value))
}

// The expression before a base, 0 where it is left out; and whether it is.
#[tactic(auto, unfolding(crate::specs::Operands::distance))]
fn read_distance(reader: &mut Reader<'_, '_>) -> Result<(bool, u64), Stop>
    ensures { Reads spec.distance reader.old result reader.new }
{
    if reader.sees_base() {
        return Ok((true, 0));
    }
    let value = read_expression(reader)?;
    Ok((false, value))
}

// `e(R)` and what else begins neither with `$` nor with a name.
#[tactic(auto, unfolding(crate::specs::Operands::memory))]
fn memory<'a>(reader: &mut Reader<'_, 'a>) -> Result<Draft<'a>, Stop>
    ensures { Reads spec.memory reader.old result reader.new }
{
    let (omitted, value) = read_distance(reader)?;
    reader.expect(b"(")?;
    let base = reader.word()?;
    if omitted && reader.eat(b",") {
        return pair(reader, base);
    }
    reader.expect(b")")?;
    at_base(reader, value.cast_signed(), base)
}

// `(R1, R2)` behind its comma.
#[tactic(auto, unfolding(crate::specs::Operands::pair))]
fn pair<'a>(reader: &mut Reader<'_, 'a>, first: Word<'a>) -> Result<Draft<'a>, Stop>
    ensures { Reads (spec.pair first.entry) reader.old result reader.new }
{
    let second = reader.word()?;
    reader.expect(b")")?;
    Ok(Draft::Pair(first, second))
}

// What an offset means behind this base.
#[tactic(auto, unfolding(crate::specs::Operands::at_base))]
fn at_base<'a>(reader: &mut Reader<'_, 'a>, off: i64, base: Word<'a>) -> Result<Draft<'a>, Stop>
    ensures { Reads (spec.at_base off base.entry) reader.old result reader.new }
{
    match base.as_slice() {
        b"PC" => Ok(Draft::Away(off)),
        b"FP" => {
            reader.note(Cause::NamelessArgument);
            Ok(Draft::Away(off))
        }
        b"SB" => Err(Stop::Form),
        _ => in_memory(reader, off, base),
    }
}

#[tactic(auto, unfolding(crate::specs::Operands::in_memory))]
fn in_memory<'a>(reader: &mut Reader<'_, 'a>, off: i64, base: Word<'a>) -> Result<Draft<'a>, Stop>
    ensures { Reads (spec.in_memory off base.entry) reader.old result reader.new }
{
    let index = read_index(reader)?;
    Ok(Draft::Mem { off, base, index })
}

// `(I*s)` behind a base, where it stands there.
#[tactic(auto, unfolding(crate::specs::Operands::index))]
fn read_index<'a>(reader: &mut Reader<'_, 'a>) -> Result<Option<(Word<'a>, u8)>, Stop>
    ensures { Reads spec.index reader.old result reader.new }
{
    if !reader.eat(b"(") {
        return Ok(None);
    }
    let name = reader.word()?;
    reader.expect(b"*")?;
    let scale = read_width(reader)?;
    reader.expect(b")")?;
    Ok(Some((name, scale)))
}

/// Reads a number that is 1, 2, 4 or 8.
#[tactic(auto, unfolding(crate::specs::Operands::width))]
pub fn read_width(reader: &mut Reader<'_, '_>) -> Result<u8, Stop>
    ensures { Reads spec.width reader.old result reader.new }
{
    match reader.number()? {
        1 => Ok(1),
        2 => Ok(2),
        4 => Ok(4),
        8 => Ok(8),
        _ => Err(Stop::Form),
    }
}
