ghost use Rattle.std.specs.Prelude.{◌≡◌, ◌++◌, ◌-◌, ◌<◌, Ok, None, map, IfOk, IfErr, OnOk};
ghost use Rattle.asm_macro.specs.Refusals.{Refuses};
ghost use Rattle.asm_macro.specs.Uses as spec;
ghost use Rattle.asm_directive.specs.Views.{parameters_if};
ghost use Rattle.asm_macro.specs.Views.{definition_of, definitions_of, work_of};

use crate::arguments::{Arguments, fits, take_arguments};
use crate::cause::{Cause, lower, refusal};
use crate::limits::MOST_PENDING;
use crate::macros::{Macro, Macros};
use crate::pending::Pending;
use crate::placed::Placed;
use crate::refusal::MacroNo;
use crate::work::{Met, Produced};
use asm_directive::{ParameterMap, is_word};
use asm_lex::Token;
use goasm_base::{List, Memory, Pos};
use std::alloc::Global;

/// The token with this position.
#[tactic(auto, unfolding(crate::specs::Uses::placed_at))]
pub fn placed_at<'a>(pos: Pos, levels: usize, token: &Token<'a>) -> Placed<'a>
    ensures { result ≡ spec.placed_at pos levels token.now }
{
    Placed {
        token: Token {
            pos,
            glued: token.glued,
            kind: token.kind,
            text: token.text.copy(),
        },
        levels,
    }
}

// Which parameter a token of a body names.
fn parameter_in(parameters: &Option<ParameterMap<'_>>, token: &Token<'_>) -> Option<usize>
    ensures { result ≡ spec.parameter_in (parameters_if parameters.now) token.now }
{
    match parameters {
        Some(parameters) if is_word(token) => parameters.places.get(token.text.as_slice()).copied(),
        _ => None,
    }
}

// Puts the tokens of an argument behind others.
fn add_argument<'a>(
    substitution: &mut Vec<Placed<'a>>,
    pos: Pos,
    levels: usize,
    argument: &[Placed<'a>],
) -> Result<(), Memory>
    ensures { OnOk result (substitution.new.items
        ≡ substitution.old.items ++ map (λ placed. spec.placed_at pos levels placed.token) argument.now) }
{
    for placed in argument {
        substitution.push(placed_at(pos, levels, &placed.token))?;
    }
    Ok(())
}

// Puts behind others what stands for a token of a body.
fn add_tokens_for<'a>(
    substitution: &mut Vec<Placed<'a>>,
    pos: Pos,
    levels: usize,
    parameters: &Option<ParameterMap<'_>>,
    lists: &[List<Placed<'a>>],
    token: &Token<'a>,
) -> Result<(), Memory>
    ensures { OnOk result (substitution.new.items ≡ substitution.old.items
        ++ spec.tokens_for pos levels lists.now token.now (spec.parameter_in (parameters_if parameters.now) token.now)) }
{
    match parameter_in(parameters, token) {
        None => substitution.push(placed_at(pos, levels, token))?,
        Some(place) => {
            if place < lists.len() {
                add_argument(substitution, pos, levels, lists[place].as_slice())?;
            }
        }
    }
    Ok(())
}

/// The body of a macro with its arguments put in.
#[tactic(auto, unfolding(crate::specs::Uses::substitution))]
fn substitution<'a>(
    alloc: Global,
    pos: Pos,
    levels: usize,
    definition: &Macro<'_, 'a>,
    lists: &[List<Placed<'a>>],
) -> Result<Vec<Placed<'a>>, Memory>
    ensures { IfOk result (λ made. made.items
        ≡ spec.substitution pos levels (parameters_if definition.now.parameters) lists.now definition.now.body.now) }
{
    let mut made = Vec::new(alloc);
    let body = definition.body;
    for token in body {
        if made.len() >= MOST_PENDING {
            return Err(Memory);
        }
        add_tokens_for(&mut made, pos, levels, &definition.parameters, lists, token)?;
    }
    Ok(made)
}

/// Reads a use: what it stands for comes next. The lowest cause that was found in the statement is told.
#[tactic(auto, unfolding(crate::specs::Uses::use_of))]
fn read_use<'a>(
    alloc: Global,
    met: &Met<'_, '_, 'a>,
    pending: &mut Pending<'a>,
    found: Option<Cause>,
) -> Result<Option<Cause>, Memory>
    ensures { IfOk result (λ next. spec.use_of found (definition_of met.now.definition.now) met.now.name pending.old
        ≡ record { pending = pending.new; found = next }) }
{
    let parameters = &met.definition.parameters;
    match take_arguments(alloc, parameters, &met.name, pending)? {
        None => Ok(Some(lower(found, Cause::MissingArguments))),
        Some(arguments) => {
            let lists = arguments.lists.as_slice();
            if !fits(parameters, lists) {
                return Ok(Some(lower(found, Cause::ArgumentCount)));
            }
            if arguments.levels == 0 {
                return Ok(Some(lower(found, Cause::Nesting)));
            }
            let pos = met.name.token.pos;
            pending.push_all(substitution(
                alloc,
                pos,
                arguments.levels - 1,
                met.definition,
                lists,
            )?)?;
            Ok(found)
        }
    }
}

// The cause at the use that passes the limit.
#[tactic(auto, unfolding(crate::specs::Uses::limit_cause))]
fn limit_cause<'a>(
    alloc: Global,
    met: &Met<'_, '_, 'a>,
    pending: &mut Pending<'a>,
) -> Result<Cause, Memory>
    ensures { IfOk result
        (λ cause. cause ≡ spec.limit_cause (definition_of met.now.definition.now) met.now.name pending.old) }
{
    let levels = match take_arguments(alloc, &met.definition.parameters, &met.name, pending)? {
        None => met.name.levels,
        Some(arguments) => arguments.levels,
    };
    if levels == 0 {
        Ok(Cause::Nesting)
    } else {
        Ok(Cause::TooMany)
    }
}

/// Expands the tokens of a statement, which begins at this place.
#[tactic(auto, unfolding(crate::specs::Uses::run))]
pub fn expand_statement<'a>(
    alloc: Global,
    macros: &Macros<'_, '_, 'a>,
    produced: &mut Produced<'a>,
    pending: Pending<'a>,
    pos: Pos,
) -> Result<(), MacroNo>
    ensures ok { OnOk result (spec.expand_statement (definitions_of macros.now) pos pending.entry (work_of produced.old)
        ≡ Ok (work_of produced.new)) }
    ensures err { IfErr result
        (λ no. Refuses (spec.expand_statement (definitions_of macros.now) pos pending.entry (work_of produced.old)) no) }
{
    let mut pending = pending;
    let mut found = None;
    while let Some(met) = produced.put_front(macros, &mut pending, found, pos)? {
        if produced.uses == 0 {
            let cause = limit_cause(alloc, &met, &mut pending)?;
            return Err(refusal(lower(found, cause), pos));
        }
        produced.uses -= 1;
        found = read_use(alloc, &met, &mut pending, found)?;
    }
    match found {
        None => Ok(()),
        Some(cause) => Err(refusal(cause, pos)),
    }
}
