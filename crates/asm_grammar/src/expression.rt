ghost use Rattle.std.specs.Prelude.{◌≡◌, fold, reverse};
ghost use Rattle.asm_grammar.specs.Reader.{Reads, Takes};
ghost use Rattle.asm_grammar.specs.Expressions as spec;
ghost use Rattle.asm_grammar.specs.Operators as operators;

use crate::cause::Cause;
use crate::operator::{Group, Operator, applied, prefixed};
use crate::reader::Reader;
use crate::stop::Stop;
use asm_lex::Token;

const MOST_NESTED: usize = 100;

/// Reads an expression: numbers of 64 bits with operators and brackets.
#[tactic(auto, unfolding(crate::specs::Expressions::expression))]
pub fn read_expression(reader: &mut Reader<'_, '_>) -> Result<u64, Stop>
    ensures { Reads spec.expression reader.old result reader.new }
{
    sum(reader, MOST_NESTED)
}

#[cycle(expression)]
#[tactic(auto, unfolding(crate::specs::Expressions::chain), using(crate::proofs::Repeats::starts, crate::proofs::Repeats::is_done))]
fn sum(reader: &mut Reader<'_, '_>, depth: usize) -> Result<u64, Stop>
    ensures { Reads (spec.sum (spec.bracketed depth)) reader.old result reader.new }
{
    let mut value = product(reader, depth)?;
    while let Some(operator) = reader.eat_operator(Group::Sum) {
        let right = product(reader, depth)?;
        value = noted(reader, operator, value, right);
    }
    Ok(value)
}

#[cycle(expression)]
#[tactic(auto, unfolding(crate::specs::Expressions::chain), using(crate::proofs::Repeats::starts, crate::proofs::Repeats::is_done))]
fn product(reader: &mut Reader<'_, '_>, depth: usize) -> Result<u64, Stop>
    ensures { Reads (spec.product (spec.bracketed depth)) reader.old result reader.new }
{
    let mut value = factor(reader, depth)?;
    while let Some(operator) = reader.eat_operator(Group::Product) {
        let right = factor(reader, depth)?;
        value = noted(reader, operator, value, right);
    }
    Ok(value)
}

#[cycle(expression)]
#[tactic(auto, unfolding(crate::specs::Expressions::factor))]
fn factor(reader: &mut Reader<'_, '_>, depth: usize) -> Result<u64, Stop>
    ensures { Reads (spec.factor (spec.bracketed depth)) reader.old result reader.new }
{
    let signs = reader.prefixes();
    let value = primary(reader, depth)?;
    Ok(prefixed_by_all(value, signs))
}

#[cycle(expression)]
#[tactic(auto, unfolding(crate::specs::Expressions::primary))]
fn primary(reader: &mut Reader<'_, '_>, depth: usize) -> Result<u64, Stop>
    ensures { Reads (spec.primary (spec.bracketed depth)) reader.old result reader.new }
{
    if !reader.eat(b"(") {
        return reader.number();
    }
    if depth == 0 {
        return Err(Stop::Form);
    }
    let value = sum(reader, depth - 1)?;
    reader.expect(b")")?;
    Ok(value)
}

// The value with its signs before it, of which the one next to it counts first.
fn prefixed_by_all(value: u64, signs: &[Token<'_>]) -> u64
    ensures { result ≡ fold spec.prefixed_by value (reverse signs.now) }
{
    signs
        .iter()
        .rev()
        .fold(value, |value, sign| prefixed(value, sign.text.as_slice()))
}

// The value of an operation. A zero divisor is noted, and the value then never used.
fn noted(reader: &mut Reader<'_, '_>, operator: Operator, left: u64, right: u64) -> u64
    ensures { Takes (spec.or_noted (operators.applied operator left right)) reader.old result reader.new }
{
    match applied(operator, left, right) {
        Some(value) => value,
        None => {
            reader.note(Cause::ZeroDivisor);
            0
        }
    }
}
