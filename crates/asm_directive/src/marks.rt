ghost use Rattle.std.specs.Prelude.{◌≡◌, ◌≤◌, ◌++◌, ◌*◌, [], length, option_to_list, OnOk, IfOk};
ghost use Rattle.std.specs.List.{flat_map};
ghost use Rattle.asm_directive.specs.LineNames as spec;
ghost use Rattle.asm_directive.specs.LineNames.{line_names_of, included_tokens, token_count};

use crate::forms::mark_in;
use crate::keyword::{Keyword, keyword_of};
use crate::statements::{Statement, before_newline, behind_first, statements_of};
use asm_lex::{Token, Tokens};
use goasm_base::{Memory, Name, NameSet};
use std::alloc::Global;
use std::marker::Model;

/// Names in the order in which they came first.
#[derive(Drop)]
struct Collector<'a> {
    names: Vec<Name>,
    seen: NameSet<'a>,
}

impl<'a> Model for Collector<'a> {
    ghost use Rattle.std.specs.Prelude.{List, ℕ};
    ghost use Rattle.asm_directive.specs.Seen.{Keeps};

    ghost Value = { List (List ℕ) };

    ghost view = { λ c. c.names.items };

    ghost invariant = { λ c. Keeps c.names.items c.seen };
}

impl<'a> Collector<'a> {
    fn new(alloc: Global) -> Self
        ensures { result ≡ [] }
    {
        Collector {
            names: Vec::new(alloc),
            seen: NameSet::new(alloc),
        }
    }

    // With a name that isn't there yet.
    #[tactic(auto, unfolding(crate::specs::LineNames::with_name))]
    fn with(self, alloc: Global, name: &'a [u8]) -> Result<Self, Memory>
        ensures { IfOk result (λ more. more ≡ spec.with_name self.entry name.now) }
    {
        if self.seen.contains(name) {
            return Ok(self);
        }
        let Collector {
            mut names,
            mut seen,
        } = self;
        names.push(Name::from_slice(alloc, name)?)?;
        seen.insert(name)?;
        Ok(Collector { names, seen })
    }

    fn finish(self) -> Vec<Name>
        ensures { result.items ≡ self.entry }
    {
        self.names
    }
}

// Each name once, at its first place.
#[tactic(auto, unfolding(crate::specs::LineNames::distinct_behind))]
fn distinct(alloc: Global, all: &[Name]) -> Result<Vec<Name>, Memory>
    ensures { IfOk result (λ names. names.items ≡ spec.distinct_behind [] all.now) }
{
    let mut names = Collector::new(alloc);
    for name in all {
        names = names.with(alloc, name.as_slice())?;
    }
    Ok(names.finish())
}

// The file that a statement names, if it is a `#line` of known form.
#[tactic(auto, unfolding(crate::specs::LineNames::name_by))]
fn name_by(alloc: Global, statement: Statement<'_, '_>) -> Result<Option<Name>, Memory>
    ensures { IfOk result (λ name. name ≡ spec.name_by statement.entry.directive statement.entry.tokens.now) }
{
    match statement.tokens {
        [_, tokens @ ..] if statement.directive => name_in_words(alloc, before_newline(tokens)),
        _ => Ok(None),
    }
}

fn name_in_words(alloc: Global, words: &[Token<'_>]) -> Result<Option<Name>, Memory>
    ensures { IfOk result (λ name. name ≡ spec.name_in_words words.now) }
{
    match keyword_of(words) {
        Keyword::Line => match mark_in(alloc, behind_first(words))? {
            Some(mark) => Ok(Some(mark.name)),
            None => Ok(None),
        },
        _ => Ok(None),
    }
}

// Adds a name, if there is one.
fn add_name(names: &mut Vec<Name>, name: Option<Name>) -> Result<(), Memory>
    ensures { OnOk result (names.new.items ≡ names.old.items ++ option_to_list name) }
{
    match name {
        None => {}
        Some(name) => names.push(name)?,
    }
    Ok(())
}

// Adds the names of a file.
fn add_file(alloc: Global, names: &mut Vec<Name>, tokens: &[Token<'_>]) -> Result<(), Memory>
    ensures { OnOk result (names.new.items ≡ names.old.items ++ spec.names_in tokens.now) }
{
    let statements = statements_of(alloc, tokens)?;
    for statement in &statements {
        add_name(names, name_by(alloc, *statement)?)?;
    }
    Ok(())
}

fn all_names(
    alloc: Global,
    sources: &[Tokens<'_>],
    includes: &[(Name, Tokens<'_>)],
) -> Result<Vec<Name>, Memory>
    ensures { IfOk result (λ names. names.items
        ≡ flat_map (λ tokens. spec.names_in tokens.list) (sources.now ++ included_tokens includes.now)) }
{
    let mut names = Vec::new(alloc);
    for tokens in sources {
        add_file(alloc, &mut names, tokens.list.as_slice())?;
    }
    for (_, tokens) in includes {
        add_file(alloc, &mut names, tokens.list.as_slice())?;
    }
    Ok(names)
}

/// The distinct names of files in `#line` directives of known form, also of branches that aren't taken: those of the
/// sources and then those of the includes, each at its first place. An escape in a name stands for its byte.
///
/// A directive takes four tokens at least, so there are at most a quarter as many names as tokens.
#[tactic(auto, unfolding(crate::specs::LineNames::line_names_of), using(crate::proofs::LineNameLemmas::line_names_few))]
pub fn line_names(
    alloc: Global,
    sources: &[Tokens<'_>],
    includes: &[(Name, Tokens<'_>)],
) -> Result<Vec<Name>, Memory>
    ensures names { IfOk result (λ names. names.items ≡ line_names_of sources.now includes.now) }
    ensures few { 4 * length (line_names_of sources.now includes.now)
        ≤ token_count (sources.now ++ included_tokens includes.now) }
{
    let all = all_names(alloc, sources, includes)?;
    distinct(alloc, &all)
}
