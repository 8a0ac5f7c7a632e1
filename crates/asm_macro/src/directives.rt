ghost use Rattle.std.specs.Prelude.{◌≡◌, ◌==◌, ◌∷◌, false, Ok, OnOk, IfOk, IfErr};
ghost use Rattle.asm_macro.specs.Refusals.{IsFault, Refuses};
ghost use Rattle.asm_directive.specs.Directives as forms;
ghost use Rattle.asm_macro.specs.BuiltIn as built_in;
ghost use Rattle.asm_macro.specs.Files as spec;
ghost use Rattle.asm_macro.specs.Conditions as conditions;
ghost use Rattle.asm_macro.specs.Views.{definitions_of, context_of, place_of, state_of, entered_of, AreBuiltIn};

use crate::built_in::{built_in_named, define_rows};
use crate::condition::{Condition, go_to_else, leave};
use crate::files::{Environment, Position, Progress};
use crate::macros::{Macro, Macros};
use crate::mapping::mapping_from;
use crate::refusal::MacroNo;
use asm_directive::{Keyword, definition_in, mark_in, name_in, quoted_in};
use asm_lex::Token;
use goasm_base::Pos;
use std::alloc::Global;

/// A directive.
#[derive(Clone, Copy)]
pub struct Directive<'t, 'a> {
    /// Where it begins.
    pub pos: Pos,
    /// The line on which it ends.
    pub end: u32,
    pub keyword: Keyword,
    /// What stands behind its first word.
    pub words: &'t [Token<'a>],
}

#[tactic(auto, unfolding(crate::specs::Files::define))]
fn define<'t, 'a>(
    alloc: Global,
    progress: &mut Progress<'_, 't, 'a>,
    pos: Pos,
    words: &'t [Token<'a>],
) -> Result<(), MacroNo>
    ensures ok { OnOk result
        (spec.define pos (forms.definition_in words.now) (state_of progress.old) ≡ Ok (state_of progress.new)) }
    ensures err { IfErr result
        (λ no. Refuses (spec.define pos (forms.definition_in words.now) (state_of progress.old)) no) }
{
    match definition_in(alloc, words)? {
        None => Err(MacroNo::M5(pos)),
        Some(named) => {
            if progress.macros.get(named.name).is_some() {
                return Err(MacroNo::M6(pos));
            }
            let definition = Macro {
                parameters: named.parameters,
                body: named.body,
                origin: None,
            };
            progress.macros.define(named.name, definition)?;
            Ok(())
        }
    }
}

#[tactic(auto, unfolding(crate::specs::Files::undefine))]
fn undefine<'a>(
    progress: &mut Progress<'_, '_, 'a>,
    pos: Pos,
    words: &[Token<'a>],
) -> Result<(), MacroNo>
    ensures ok { OnOk result
        (spec.undefine pos (forms.name_in words.now) (state_of progress.old) ≡ Ok (state_of progress.new)) }
    ensures err { IfErr result
        (λ no. Refuses (spec.undefine pos (forms.name_in words.now) (state_of progress.old)) no) }
{
    match name_in(words) {
        None => Err(MacroNo::M5(pos)),
        Some(name) => {
            progress.macros.undefine(name)?;
            Ok(())
        }
    }
}

// Counts the use of a file.
fn count_use(progress: &mut Progress<'_, '_, '_>, levels: usize, pos: Pos) -> Result<(), MacroNo>
    ensures ok { OnOk result (spec.count_use levels pos (state_of progress.old) ≡ Ok (state_of progress.new)) }
    ensures err { IfErr result (λ no. Refuses (spec.count_use levels pos (state_of progress.old)) no) }
{
    if levels == 0 {
        return Err(MacroNo::M4(pos));
    }
    if progress.produced.uses == 0 {
        return Err(MacroNo::M7(pos));
    }
    progress.produced.uses -= 1;
    Ok(())
}

// Defines what a built-in file defines.
#[tactic(auto, unfolding(crate::specs::Files::include_built_in))]
fn include_built_in<'t, 'a>(
    environment: &Environment<'t, 'a>,
    progress: &mut Progress<'_, 't, 'a>,
    levels: usize,
    pos: Pos,
    name: &[u8],
) -> Result<(), MacroNo>
    requires { AreBuiltIn environment.now.built_in.now }
    ensures ok { OnOk result (spec.include_built_in levels pos (state_of progress.old) (built_in.built_in_named name.now)
        ≡ Ok (state_of progress.new)) }
    ensures err { IfErr result (λ no. Refuses
        (spec.include_built_in levels pos (state_of progress.old) (built_in.built_in_named name.now)) no) }
{
    match built_in_named(name) {
        None => Err(MacroNo::M1(pos)),
        Some(file) => {
            count_use(progress, levels, pos)?;
            define_rows(
                &mut progress.macros,
                file,
                environment.built_in.of(file),
                pos,
            )
        }
    }
}

// Includes a file: one of the build is to be read next.
#[tactic(auto, unfolding(crate::specs::Files::include, crate::specs::Files::include_named, crate::specs::Views::context_of))]
fn include<'t, 'a>(
    alloc: Global,
    environment: &Environment<'t, 'a>,
    progress: &mut Progress<'_, 't, 'a>,
    levels: usize,
    pos: Pos,
    words: &'t [Token<'a>],
) -> Result<Option<&'t [Token<'a>]>, MacroNo>
    requires { AreBuiltIn environment.now.built_in.now }
    ensures ok { IfOk result (λ entered.
        spec.include (context_of environment.now) levels pos (forms.quoted_in words.now) (state_of progress.old)
        ≡ Ok (record { state = state_of progress.new; entered = entered_of entered })) }
    ensures err { IfErr result (λ no. Refuses
        (spec.include (context_of environment.now) levels pos (forms.quoted_in words.now) (state_of progress.old)) no) }
{
    match quoted_in(alloc, words)? {
        None => Err(MacroNo::M5(pos)),
        Some(name) => match environment.includes.get(name.as_slice()) {
            Some(file) => {
                count_use(progress, levels, pos)?;
                Ok(Some(file.tokens))
            }
            None => {
                include_built_in(environment, progress, levels, pos, name.as_slice())?;
                Ok(None)
            }
        },
    }
}

// Opens a condition, whose first branch is taken where the name is defined or where it isn't.
#[tactic(auto, unfolding(crate::specs::Files::open_condition))]
fn open_condition(
    macros: &Macros<'_, '_, '_>,
    position: &mut Position,
    wanted: bool,
    pos: Pos,
    words: &[Token<'_>],
) -> Result<(), MacroNo>
    ensures ok { OnOk result (spec.open_condition wanted pos (forms.name_in words.now) (definitions_of macros.now) (place_of position.old)
        ≡ Ok (place_of position.new)) }
    ensures err { IfErr result (λ no. Refuses
        (spec.open_condition wanted pos (forms.name_in words.now) (definitions_of macros.now) (place_of position.old)) no) }
{
    let Some(name) = name_in(words) else {
        return Err(MacroNo::M5(pos));
    };
    let defined = macros.get(name).is_some();
    push_condition(position, pos, true, if wanted { defined } else { !defined })
}

fn push_condition(
    position: &mut Position,
    pos: Pos,
    counts: bool,
    taken: bool,
) -> Result<(), MacroNo>
    ensures ok { OnOk result (place_of position.new ≡ spec.with_conditions (place_of position.old)
        (record { pos = pos; counts = counts; taken = taken; has_else = false } ∷ (place_of position.old).conditions)) }
    ensures err { IfErr result (λ no. IsFault no → ⊥) }
{
    position
        .conditions
        .push_front(Condition {
            pos,
            counts,
            taken,
            has_else: false,
        })
        .map_err(|_| MacroNo::Memory)
}

fn enter_else(position: &mut Position, pos: Pos, alone: bool) -> Result<(), MacroNo>
    ensures ok { OnOk result (spec.balanced_place pos (place_of position.old) (conditions.conditions_after_else alone (place_of position.old).conditions)
        ≡ Ok (place_of position.new)) }
    ensures err { IfErr result (λ no. Refuses
        (spec.balanced_place pos (place_of position.old) (conditions.conditions_after_else alone (place_of position.old).conditions)) no) }
{
    if go_to_else(&mut position.conditions, alone)? {
        Ok(())
    } else {
        Err(MacroNo::M5(pos))
    }
}

fn leave_condition(position: &mut Position, pos: Pos, alone: bool) -> Result<(), MacroNo>
    ensures ok { OnOk result (spec.balanced_place pos (place_of position.old) (conditions.conditions_after_endif alone (place_of position.old).conditions)
        ≡ Ok (place_of position.new)) }
    ensures err { IfErr result (λ no. Refuses
        (spec.balanced_place pos (place_of position.old) (conditions.conditions_after_endif alone (place_of position.old).conditions)) no) }
{
    if leave(&mut position.conditions, alone) {
        Ok(())
    } else {
        Err(MacroNo::M5(pos))
    }
}

#[tactic(auto, unfolding(crate::specs::Files::mark, crate::specs::Views::context_of))]
fn mark(
    alloc: Global,
    environment: &Environment<'_, '_>,
    position: &mut Position,
    pos: Pos,
    end: u32,
    words: &[Token<'_>],
) -> Result<(), MacroNo>
    ensures ok { OnOk result (spec.mark (context_of environment.now) pos end (forms.mark_in words.now) (place_of position.old)
        ≡ Ok (place_of position.new)) }
    ensures err { IfErr result (λ no. Refuses
        (spec.mark (context_of environment.now) pos end (forms.mark_in words.now) (place_of position.old)) no) }
{
    let Some(mark) = mark_in(alloc, words)? else {
        return Err(MacroNo::M5(pos));
    };
    if let Some(file) = environment.files.get(mark.name.as_slice()) {
        position.mapping = Some(mapping_from(*file, mark.number, end));
    }
    Ok(())
}

/// Does what a directive says, where statements count. The file that it includes, if any, is to be read next.
#[tactic(auto, unfolding(crate::specs::Files::execute))]
pub fn execute<'t, 'a>(
    alloc: Global,
    environment: &Environment<'t, 'a>,
    levels: usize,
    directive: Directive<'t, 'a>,
    position: &mut Position,
    progress: &mut Progress<'_, 't, 'a>,
) -> Result<Option<&'t [Token<'a>]>, MacroNo>
    requires { AreBuiltIn environment.now.built_in.now }
    ensures ok { IfOk result (λ entered. spec.execute (context_of environment.now) levels directive.entry.pos directive.entry.end directive.entry.words.now
        (place_of position.old) (state_of progress.old) directive.entry.keyword
        ≡ Ok (record { place = place_of position.new; state = state_of progress.new; entered = entered_of entered })) }
    ensures err { IfErr result (λ no. Refuses
        (spec.execute (context_of environment.now) levels directive.entry.pos directive.entry.end directive.entry.words.now
        (place_of position.old) (state_of progress.old) directive.entry.keyword) no) }
{
    let Directive {
        pos,
        end,
        keyword,
        words,
    } = directive;
    let alone = words.is_empty();
    match keyword {
        Keyword::Define => define(alloc, progress, pos, words)?,
        Keyword::Undef => undefine(progress, pos, words)?,
        Keyword::Include => return include(alloc, environment, progress, levels, pos, words),
        Keyword::Ifdef => open_condition(&progress.macros, position, true, pos, words)?,
        Keyword::Ifndef => open_condition(&progress.macros, position, false, pos, words)?,
        Keyword::Else => enter_else(position, pos, alone)?,
        Keyword::Endif => leave_condition(position, pos, alone)?,
        Keyword::Line => mark(alloc, environment, position, pos, end, words)?,
        Keyword::Other => return Err(MacroNo::M5(pos)),
    }
    Ok(None)
}

/// Passes a directive in a branch that isn't taken: only conditions are counted, by their first words.
#[tactic(auto, unfolding(crate::specs::Files::skip))]
pub fn skip(directive: Directive<'_, '_>, position: &mut Position) -> Result<(), MacroNo>
    ensures ok { OnOk result (spec.skip directive.entry.pos directive.entry.words.now (place_of position.old) directive.entry.keyword
        ≡ Ok (place_of position.new)) }
    ensures err { IfErr result (λ no. Refuses
        (spec.skip directive.entry.pos directive.entry.words.now (place_of position.old) directive.entry.keyword) no) }
{
    let pos = directive.pos;
    let alone = directive.words.is_empty();
    match directive.keyword {
        Keyword::Ifdef | Keyword::Ifndef => push_condition(position, pos, false, false),
        Keyword::Else => enter_else(position, pos, alone),
        Keyword::Endif => leave_condition(position, pos, alone),
        Keyword::Define | Keyword::Undef | Keyword::Include | Keyword::Line | Keyword::Other => {
            Ok(())
        }
    }
}
