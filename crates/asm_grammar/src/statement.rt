ghost use Rattle.std.specs.Prelude.{◌≡◌, ◌+◌, ◌≤◌, length, IfOk};
ghost use Rattle.asm_grammar.specs.Reader.{Reads};
ghost use Rattle.asm_grammar.specs.Statements as spec;

use crate::cause::Cause;
use crate::directive::{DataLine, GlobalLine, TextLine, read_data, read_global, read_text};
use crate::draft::Draft;
use crate::operand::read_operand;
use crate::reader::Reader;
use crate::stop::Stop;
use crate::word::Word;
use goasm_base::List;
use std::alloc::Global;

/// A statement of the source.
#[derive(Drop)]
pub struct Statement<'a> {
    /// The labels before it.
    pub labels: List<Word<'a>>,
    pub form: Form<'a>,
}

/// What stands behind the labels of a statement.
#[derive(Drop)]
pub enum Form<'a> {
    Empty,
    /// `LOCK`, which belongs to the next instruction.
    Lock,
    Text(TextLine<'a>),
    Data(DataLine<'a>),
    Global(GlobalLine<'a>),
    Code(CodeLine<'a>),
}

/// A mnemonic with its operands.
#[derive(Drop)]
pub struct CodeLine<'a> {
    pub op: Word<'a>,
    /// The letter behind the mnemonic's `.`.
    pub suffix: Option<u8>,
    pub operands: List<Draft<'a>>,
}

/// Reads a statement, all of it.
#[tactic(auto, unfolding(crate::specs::Statements::statement))]
pub fn read_statement<'a>(alloc: Global, reader: &mut Reader<'_, 'a>) -> Result<Statement<'a>, Stop>
    ensures read { Reads spec.statement reader.old result reader.new }
    ensures sized { IfOk result (λ statement. spec.HasSizes statement.form) }
    ensures few { IfOk result (λ statement. spec.operand_count statement.form ≤ length reader.old.rest + 1) }
{
    let labels = read_labels(alloc, reader)?;
    let form = read_form(alloc, reader)?;
    if !reader.is_ended() {
        return Err(Stop::Form);
    }
    Ok(Statement { labels, form })
}

#[tactic(auto, unfolding(crate::specs::Statements::labels), using(crate::proofs::Repeats::starts, crate::proofs::Repeats::is_done))]
fn read_labels<'a>(alloc: Global, reader: &mut Reader<'_, 'a>) -> Result<List<Word<'a>>, Stop>
    ensures { Reads spec.labels reader.old result reader.new }
{
    let mut labels = Vec::new(alloc);
    while let Some(label) = reader.eat_label() {
        labels.push(label)?;
    }
    Ok(List::new(labels))
}

#[tactic(auto, unfolding(crate::specs::Statements::form))]
fn read_form<'a>(alloc: Global, reader: &mut Reader<'_, 'a>) -> Result<Form<'a>, Stop>
    ensures read { Reads spec.form reader.old result reader.new }
    ensures sized { IfOk result (λ form. spec.HasSizes form) }
    ensures few { IfOk result (λ form. spec.operand_count form ≤ length reader.old.rest + 1) }
{
    if reader.is_ended() {
        return Ok(Form::Empty);
    }
    let op = reader.word()?;
    match op.as_slice() {
        b"TEXT" => Ok(Form::Text(read_text(reader)?)),
        b"DATA" => Ok(Form::Data(read_data(alloc, reader)?)),
        b"GLOBL" => Ok(Form::Global(read_global(reader)?)),
        b"LOCK" => Ok(Form::Lock),
        _ => read_code(alloc, reader, op),
    }
}

#[tactic(auto, unfolding(crate::specs::Statements::code))]
fn read_code<'a>(alloc: Global, reader: &mut Reader<'_, 'a>, op: Word<'a>) -> Result<Form<'a>, Stop>
    ensures read { Reads (spec.code op.entry) reader.old result reader.new }
    ensures sized { IfOk result (λ form. spec.HasSizes form) }
    ensures few { IfOk result (λ form. spec.operand_count form ≤ length reader.old.rest + 1) }
{
    let suffix = read_suffix(reader)?;
    let operands = read_operands(alloc, reader)?;
    if is_raw(op.as_slice()) {
        reader.note(Cause::RawCode);
    }
    Ok(Form::Code(CodeLine {
        op,
        suffix,
        operands,
    }))
}

// The mnemonics that give code as bytes.
fn is_raw(op: &[u8]) -> bool
    ensures { result ≡ spec.is_raw op.now }
{
    matches!(op, b"BYTE" | b"WORD" | b"LONG" | b"QUAD")
}

#[tactic(auto, unfolding(crate::specs::Statements::suffix))]
fn read_suffix(reader: &mut Reader<'_, '_>) -> Result<Option<u8>, Stop>
    ensures { Reads spec.suffix reader.old result reader.new }
{
    if !reader.eat(b".") {
        return Ok(None);
    }
    let letter = reader.word()?;
    match letter.as_slice() {
        [letter] if letter.is_ascii_alphabetic() => Ok(Some(*letter)),
        _ => Err(Stop::Form),
    }
}

#[tactic(auto, unfolding(crate::specs::Statements::operands), using(crate::proofs::Repeats::starts, crate::proofs::Repeats::is_done, crate::proofs::Listed::not_begun))]
fn read_operands<'a>(alloc: Global, reader: &mut Reader<'_, 'a>) -> Result<List<Draft<'a>>, Stop>
    ensures read { Reads spec.operands reader.old result reader.new }
    // Each but the first has a comma before it.
    ensures few { IfOk result (λ operands. length operands ≤ length reader.old.rest + 1) }
{
    let mut operands = Vec::new(alloc);
    if reader.is_ended() {
        return Ok(List::new(operands));
    }
    let first = read_operand(reader)?;
    operands.push(first)?;
    'operands: while reader.eat(b",") {
        let next = read_operand(reader)?;
        operands.push(next)?;
    }
    Ok(List::new(operands))
}
