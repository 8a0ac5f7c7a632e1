ghost use Rattle.std.specs.Prelude.{◌≡◌, ◌<◌, ◌≤◌, ◌+◌, ◌++◌, length, take, drop, map, position, OnOk, IfOk};
ghost use Rattle.std.specs.List.{before_first, position_or_len};
ghost use Rattle.asm_directive.specs.Statements.{rest_of};
ghost use Rattle.asm_directive.specs.Statements as spec;
ghost use Rattle.asm_directive.specs.Tokens as tokens_spec;
ghost use Rattle.asm_directive.specs.Views.{statement_of};

use crate::tokens::{is_end, is_newline, is_sign};
use asm_lex::Token;
use goasm_base::Memory;
use std::alloc::Global;

/// A statement of a file.
#[derive(Clone, Copy)]
pub struct Statement<'t, 'a> {
    /// Whether it is a directive.
    pub directive: bool,
    /// Its tokens with its end.
    pub tokens: &'t [Token<'a>],
}

/// The statements of a file.
#[tactic(auto, unfolding(crate::specs::Statements::statements_of))]
pub fn statements_of<'t, 'a>(
    alloc: Global,
    tokens: &'t [Token<'a>],
) -> Result<Vec<Statement<'t, 'a>>, Memory>
    ensures { IfOk result (λ statements. map statement_of statements.items ≡ spec.statements_of tokens.now) }
{
    let mut statements = Vec::new(alloc);
    let mut at = 0;
    'lines: while at < tokens.len() {
        let len = line_len(&tokens[at..]);
        add_line(&mut statements, &tokens[at..at + len])?;
        at += len;
    }
    Ok(statements)
}

// Adds the statements of a line.
#[tactic(auto, unfolding(crate::specs::Statements::statements_on))]
fn add_line<'t, 'a>(
    statements: &mut Vec<Statement<'t, 'a>>,
    line: &'t [Token<'a>],
) -> Result<(), Memory>
    ensures { OnOk result (map statement_of statements.new.items
        ≡ map statement_of statements.old.items ++ spec.statements_on line.now) }
{
    if begins_with_hash(line) {
        statements.push(Statement {
            directive: true,
            tokens: line,
        })?;
        return Ok(());
    }
    add_parts(statements, line)
}

// Adds a statement for each part of a line up to an end.
fn add_parts<'t, 'a>(
    statements: &mut Vec<Statement<'t, 'a>>,
    line: &'t [Token<'a>],
) -> Result<(), Memory>
    ensures { OnOk result (map statement_of statements.new.items
        ≡ map statement_of statements.old.items ++ map spec.plain (spec.split_inclusive tokens_spec.is_end line.now)) }
{
    let mut at = 0;
    'parts: while at < line.len() {
        let len = part_len(&line[at..]);
        statements.push(Statement {
            directive: false,
            tokens: &line[at..at + len],
        })?;
        at += len;
    }
    Ok(())
}

fn begins_with_hash(tokens: &[Token<'_>]) -> bool
    ensures { result ≡ spec.begins_with_hash tokens.now }
{
    match tokens {
        [] => false,
        [token, ..] => is_sign(b'#', token),
    }
}

fn first_newline(tokens: &[Token<'_>]) -> Option<usize>
    ensures { result ≡ position tokens_spec.is_newline tokens.now }
{
    tokens.iter().position(is_newline)
}

fn first_end(tokens: &[Token<'_>]) -> Option<usize>
    ensures { result ≡ position tokens_spec.is_end tokens.now }
{
    tokens.iter().position(is_end)
}

// How many tokens there are up to the first newline and with it.
fn line_len(tokens: &[Token<'_>]) -> usize
    ensures front { take result tokens.now ≡ take (position_or_len tokens_spec.is_newline tokens.now + 1) tokens.now }
    ensures behind { drop result tokens.now ≡ drop (position_or_len tokens_spec.is_newline tokens.now + 1) tokens.now }
    ensures some { 0 < length tokens.now → 0 < result }
    ensures within { result ≤ length tokens.now }
{
    match first_newline(tokens) {
        Some(at) => at + 1,
        None => tokens.len(),
    }
}

// How many tokens there are up to the first end and with it.
fn part_len(tokens: &[Token<'_>]) -> usize
    ensures front { take result tokens.now ≡ take (position_or_len tokens_spec.is_end tokens.now + 1) tokens.now }
    ensures behind { drop result tokens.now ≡ drop (position_or_len tokens_spec.is_end tokens.now + 1) tokens.now }
    ensures some { 0 < length tokens.now → 0 < result }
    ensures within { result ≤ length tokens.now }
{
    match first_end(tokens) {
        Some(at) => at + 1,
        None => tokens.len(),
    }
}

/// The tokens before the end of a line.
pub fn before_newline<'t, 'a>(tokens: &'t [Token<'a>]) -> &'t [Token<'a>]
    ensures { result.now ≡ before_first tokens_spec.is_newline tokens.now }
{
    match first_newline(tokens) {
        Some(at) => &tokens[..at],
        None => tokens,
    }
}

/// The tokens behind the first.
pub fn behind_first<'t, 'a>(tokens: &'t [Token<'a>]) -> &'t [Token<'a>]
    ensures { result.now ≡ rest_of tokens.now }
{
    match tokens {
        [] => tokens,
        [_, behind @ ..] => behind,
    }
}
