ghost use Rattle.std.specs.Prelude.{◌≡◌, IfOk};
ghost use Rattle.asm_directive.specs.Directives as spec;
ghost use Rattle.asm_directive.specs.Views.{names_of, name_of, line_mark_of, head_of, named_of};

use crate::names::NameMap;
use crate::texts::value_of;
use crate::tokens::{is_sign, is_text, is_word};
use asm_lex::{Kind, Token};
use goasm_base::{Memory, Name};
use std::alloc::Global;

/// One word and no more.
#[tactic(auto, unfolding(crate::specs::Directives::name_in))]
pub fn name_in<'a>(words: &[Token<'a>]) -> Option<&'a [u8]>
    ensures { name_of result ≡ spec.name_in words.now }
{
    match words {
        [token] if is_word(token) => Some(token.text.as_slice()),
        _ => None,
    }
}

/// One text and no more: what it stands for.
#[tactic(auto, unfolding(crate::specs::Directives::quoted_in))]
pub fn quoted_in(alloc: Global, words: &[Token<'_>]) -> Result<Option<Name>, Memory>
    ensures { IfOk result (λ name. name ≡ spec.quoted_in words.now) }
{
    match words {
        [token] if is_text(token) => Ok(Some(value_of(alloc, token)?)),
        _ => Ok(None),
    }
}

/// What a `#line` says.
#[derive(Drop)]
pub struct Mark {
    pub number: u64,
    pub name: Name,
}

/// A number, a text and no more.
#[tactic(auto, unfolding(crate::specs::Directives::mark_in))]
pub fn mark_in(alloc: Global, words: &[Token<'_>]) -> Result<Option<Mark>, Memory>
    ensures { IfOk result (λ mark. line_mark_of mark ≡ spec.mark_in words.now) }
{
    match words {
        [number, token] => match number.kind {
            Kind::Number(value) if is_text(token) => Ok(Some(Mark {
                number: value,
                name: value_of(alloc, token)?,
            })),
            _ => Ok(None),
        },
        _ => Ok(None),
    }
}

/// The parameters of a macro.
#[derive(Drop)]
pub struct ParameterMap<'a> {
    /// How many there are.
    pub count: usize,
    /// Which of them a name is, from 0.
    pub places: NameMap<'a, usize>,
}

// Parameters, and the body behind them.
#[derive(Drop)]
pub struct Opening<'t, 'a> {
    pub parameters: ParameterMap<'a>,
    pub body: &'t [Token<'a>],
}

// Words that differ, with commas between them, up to a closing bracket.
#[tactic(auto, unfolding(crate::proofs::HeadLemmas::head_from), using(crate::proofs::HeadLemmas::head_is))]
fn head_from<'t, 'a>(
    alloc: Global,
    tokens: &'t [Token<'a>],
) -> Result<Option<Opening<'t, 'a>>, Memory>
    ensures { IfOk result (λ head. head_of head ≡ spec.head_by (spec.words_in tokens.now)) }
{
    let mut places = NameMap::new(alloc);
    let mut count: usize = 0;
    let mut wants_name = true;
    for at in 0..tokens.len() {
        let token = &tokens[at];
        if wants_name {
            if !is_word(token) || places.get(token.text.as_slice()).is_some() {
                return Ok(None);
            }
            places.put(token.text.as_slice(), count)?;
            count += 1;
            wants_name = false;
        } else if is_sign(b')', token) {
            return Ok(Some(Opening {
                parameters: ParameterMap { count, places },
                body: &tokens[at + 1..],
            }));
        } else if is_sign(b',', token) {
            wants_name = true;
        } else {
            return Ok(None);
        }
    }
    Ok(None)
}

// What stands behind the opening bracket of parameters, of which there may be none.
#[tactic(auto, unfolding(crate::specs::Directives::head_in))]
fn head_in<'t, 'a>(
    alloc: Global,
    tokens: &'t [Token<'a>],
) -> Result<Option<Opening<'t, 'a>>, Memory>
    ensures { IfOk result (λ head. head_of head ≡ spec.head_in tokens.now) }
{
    match tokens {
        [] => Ok(None),
        [token, body @ ..] if is_sign(b')', token) => Ok(Some(Opening {
            parameters: ParameterMap {
                count: 0,
                places: NameMap::new(alloc),
            },
            body,
        })),
        _ => head_from(alloc, tokens),
    }
}

/// What a `#define` says.
#[derive(Drop)]
pub struct NamedMacro<'t, 'a> {
    pub name: &'a [u8],
    /// The parameters of one that takes arguments.
    pub parameters: Option<ParameterMap<'a>>,
    pub body: &'t [Token<'a>],
}

// A definition of this name. A bracket that stands directly behind the name opens parameters.
#[tactic(auto, unfolding(crate::specs::Directives::definition_behind))]
fn definition_behind<'t, 'a>(
    alloc: Global,
    name: &'a [u8],
    tokens: &'t [Token<'a>],
) -> Result<Option<NamedMacro<'t, 'a>>, Memory>
    ensures { IfOk result (λ named. named_of named ≡ spec.definition_behind name.now tokens.now) }
{
    match tokens {
        [token, behind @ ..] if is_sign(b'(', token) && token.glued => {
            match head_in(alloc, behind)? {
                None => Ok(None),
                Some(head) => Ok(Some(NamedMacro {
                    name,
                    parameters: Some(head.parameters),
                    body: head.body,
                })),
            }
        }
        body => Ok(Some(NamedMacro {
            name,
            parameters: None,
            body,
        })),
    }
}

/// A name, parameters where a bracket stands directly behind it, and a body.
#[tactic(auto, unfolding(crate::specs::Directives::definition_in))]
pub fn definition_in<'t, 'a>(
    alloc: Global,
    words: &'t [Token<'a>],
) -> Result<Option<NamedMacro<'t, 'a>>, Memory>
    ensures { IfOk result (λ named. named_of named ≡ spec.definition_in words.now) }
{
    match words {
        [name, tokens @ ..] if is_word(name) => {
            definition_behind(alloc, name.text.as_slice(), tokens)
        }
        _ => Ok(None),
    }
}
