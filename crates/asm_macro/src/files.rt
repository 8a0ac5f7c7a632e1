ghost use Rattle.std.specs.Prelude.{◌≡◌, Ok, Err, OnOk, IfOk, IfErr};
ghost use Rattle.asm_macro.specs.Refusals.{IsFault, Refuses};
ghost use Rattle.std.specs.List.{before_first};
ghost use Rattle.asm_directive.specs.Tokens.{is_newline};
ghost use Rattle.asm_directive.specs.Directives as forms;
ghost use Rattle.asm_directive.specs.Statements as statements;
ghost use Rattle.asm_macro.specs.Files as spec;
ghost use Rattle.asm_macro.specs.Views.{context_of, place_of, state_of, entered_of, AreBuiltIn};

use crate::built_in::Rows;
use crate::condition::{Condition, is_taken};
use crate::directives::{Directive, execute, skip};
use crate::macros::Macros;
use crate::mapping::{Mapping, mapped_pos};
use crate::pending::Pending;
use crate::placed::Placed;
use crate::refusal::MacroNo;
use crate::uses::{expand_statement, placed_at};
use crate::work::Produced;
use asm_directive::{NameMap, Statement, before_newline, behind_first, keyword_of, statements_of};
use asm_lex::Token;
use goasm_base::{Memory, Pos};
use std::alloc::Global;
use std::collections::VecDeque;

/// A file that may be included.
#[derive(Clone, Copy)]
pub struct Included<'t, 'a> {
    pub tokens: &'t [Token<'a>],
}

/// What stays the same through a build.
#[derive(Drop)]
pub struct Environment<'t, 'a> {
    /// The files that may be included, by name.
    pub includes: NameMap<'t, Included<'t, 'a>>,
    /// The numbers of the files that `#line` names.
    pub files: NameMap<'t, u32>,
    pub built_in: &'t Rows<'a>,
}

/// What a source has come to.
#[derive(Drop)]
pub struct Progress<'g, 't, 'a> {
    pub macros: Macros<'g, 't, 'a>,
    pub produced: Produced<'a>,
}

/// What holds at a place in a file.
#[derive(Drop)]
pub struct Position {
    pub mapping: Option<Mapping>,
    /// The conditions that are open, the innermost first.
    pub conditions: VecDeque<Condition>,
}

// The tokens of a statement, each with its position.
fn placed_in<'a>(
    alloc: Global,
    mapping: Option<Mapping>,
    levels: usize,
    tokens: &[Token<'a>],
) -> Result<Vec<Placed<'a>>, Memory>
    ensures { IfOk result (λ placed. placed.items ≡ spec.placed_in mapping levels tokens.now) }
{
    let mut placed = Vec::new(alloc);
    for token in tokens {
        placed.push(placed_at(mapped_pos(mapping, token.pos), levels, token))?;
    }
    Ok(placed)
}

// Expands a statement that is no directive, where it counts.
#[tactic(auto, unfolding(crate::specs::Files::read_plain))]
fn read_plain<'a>(
    alloc: Global,
    levels: usize,
    pos: Pos,
    tokens: &[Token<'a>],
    position: &Position,
    progress: &mut Progress<'_, '_, 'a>,
) -> Result<(), MacroNo>
    ensures ok { OnOk result (spec.read_plain levels pos tokens.now (place_of position.now) (state_of progress.old)
        ≡ spec.step_at (place_of position.now) (state_of progress.new)) }
    ensures err { IfErr result
        (λ no. Refuses (spec.read_plain levels pos tokens.now (place_of position.now) (state_of progress.old)) no) }
{
    if !is_taken(&position.conditions) {
        return Ok(());
    }
    let mut pending = Pending::new(alloc);
    pending.push_all(placed_in(alloc, position.mapping, levels, tokens)?)?;
    expand_statement(
        alloc,
        &progress.macros,
        &mut progress.produced,
        pending,
        pos,
    )
}

// Does what a directive says, or passes it.
#[tactic(auto, unfolding(crate::specs::Files::read_directive))]
fn read_directive<'t, 'a>(
    alloc: Global,
    environment: &Environment<'t, 'a>,
    levels: usize,
    directive: Directive<'t, 'a>,
    position: &mut Position,
    progress: &mut Progress<'_, 't, 'a>,
) -> Result<Option<&'t [Token<'a>]>, MacroNo>
    requires { AreBuiltIn environment.now.built_in.now }
    ensures ok { IfOk result (λ entered. spec.read_directive (context_of environment.now) levels directive.entry.pos directive.entry.end
        directive.entry.words.now (place_of position.old) (state_of progress.old) directive.entry.keyword
        ≡ Ok (record { place = place_of position.new; state = state_of progress.new; entered = entered_of entered })) }
    ensures err { IfErr result (λ no. Refuses (spec.read_directive (context_of environment.now) levels directive.entry.pos directive.entry.end
        directive.entry.words.now (place_of position.old) (state_of progress.old) directive.entry.keyword) no) }
{
    if is_taken(&position.conditions) {
        return execute(alloc, environment, levels, directive, position, progress);
    }
    skip(directive, position)?;
    Ok(None)
}

// A directive by its tokens, of which the first has this position.
fn directive_of<'t, 'a>(pos: Pos, end: u32, tokens: &'t [Token<'a>]) -> Directive<'t, 'a>
    ensures pos { result.pos ≡ pos }
    ensures end { result.end ≡ end }
    ensures keyword { result.keyword ≡ forms.keyword_of (before_first is_newline tokens.now) }
    ensures words { result.words.now ≡ statements.rest_of (before_first is_newline tokens.now) }
{
    let words = before_newline(tokens);
    Directive {
        pos,
        end,
        keyword: keyword_of(words),
        words: behind_first(words),
    }
}

// Reads a statement. The file that it includes, if any, is to be read next.
#[tactic(auto, unfolding(crate::specs::Files::read_statement))]
fn read_statement<'t, 'a>(
    alloc: Global,
    environment: &Environment<'t, 'a>,
    levels: usize,
    statement: Statement<'t, 'a>,
    position: &mut Position,
    progress: &mut Progress<'_, 't, 'a>,
) -> Result<Option<&'t [Token<'a>]>, MacroNo>
    requires { AreBuiltIn environment.now.built_in.now }
    ensures ok { IfOk result (λ entered. spec.read_statement (context_of environment.now) levels statement.entry.directive statement.entry.tokens.now
        (place_of position.old) (state_of progress.old)
        ≡ Ok (record { place = place_of position.new; state = state_of progress.new; entered = entered_of entered })) }
    ensures err { IfErr result (λ no. Refuses (spec.read_statement (context_of environment.now) levels statement.entry.directive statement.entry.tokens.now
        (place_of position.old) (state_of progress.old)) no) }
{
    let [first, tokens @ ..] = statement.tokens else {
        return Ok(None);
    };
    let pos = mapped_pos(position.mapping, first.pos);
    if statement.directive {
        let directive = directive_of(pos, end_line(first, statement.tokens), tokens);
        return read_directive(alloc, environment, levels, directive, position, progress);
    }
    read_plain(alloc, levels, pos, statement.tokens, position, progress)?;
    Ok(None)
}

// The line on which tokens end.
fn end_line(first: &Token<'_>, tokens: &[Token<'_>]) -> u32
    ensures { result ≡ spec.end_line first.now tokens.now }
{
    match tokens {
        [.., last] => last.pos.line,
        [] => first.pos.line,
    }
}

// A file ends with no condition open.
fn end_file(position: &Position) -> Result<(), MacroNo>
    ensures ok { OnOk result ((state : spec.State) → spec.end_file (place_of position.now).conditions state ≡ Ok state) }
    ensures err { IfErr result
        (λ no. IsFault no → (state : spec.State) → spec.end_file (place_of position.now).conditions state ≡ Err no) }
{
    match position.conditions.front() {
        None => Ok(()),
        Some(condition) => Err(MacroNo::M5(condition.pos)),
    }
}

/// Reads a file, below which so many levels of uses may nest.
#[tactic(auto, unfolding(crate::specs::Files::read_statements, crate::specs::Files::read_file))]
pub fn read_file<'t, 'a>(
    alloc: Global,
    environment: &Environment<'t, 'a>,
    levels: usize,
    tokens: &'t [Token<'a>],
    progress: &mut Progress<'_, 't, 'a>,
) -> Result<(), MacroNo>
    requires { AreBuiltIn environment.now.built_in.now }
    ensures ok { OnOk result (spec.read_file levels (context_of environment.now) tokens.now (state_of progress.old)
        ≡ Ok (state_of progress.new)) }
    ensures err { IfErr result
        (λ no. Refuses (spec.read_file levels (context_of environment.now) tokens.now (state_of progress.old)) no) }
{
    let mut position = Position {
        mapping: None,
        conditions: VecDeque::new(alloc),
    };
    let statements = statements_of(alloc, tokens)?;
    for statement in &statements {
        let entered = read_statement(
            alloc,
            environment,
            levels,
            *statement,
            &mut position,
            progress,
        )?;
        if let Some(tokens) = entered {
            if levels > 0 {
                read_file(alloc, environment, levels - 1, tokens, progress)?;
            }
        }
    }
    end_file(&position)?;
    Ok(())
}
