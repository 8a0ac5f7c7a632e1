ghost use Rattle.std.specs.Prelude.{◌≡◌, ◌++◌, Bool, IfOk, OnOk};
ghost use Rattle.goasm_run.specs.Builds.{build_answer};
ghost use Rattle.goasm_run.specs.Changes.{shelf_change};
ghost use Rattle.goasm_run.specs.Stops.{Settles, Answers};
ghost use Rattle.goasm_run.specs.Expand as spec;
ghost use Rattle.goasm_run.specs.Expand.{list_text, expand_judge, expand_plan};
ghost use Rattle.goasm_run.specs.SourcesLexed.{AreNumbered};
ghost use Rattle.goasm_run.specs.TokensWritten.{token_text};

use crate::build::{built, parts_of};
use crate::part::Part;
use crate::stop::Stop;
use asm_lex::{Kind, Token, Tokens};
use goasm_base::{Bytes, Memory, Name, Shelf, Text};
use goasm_text::push_place;
use std::alloc::Global;

/// `expand LIST`: every statement of the sources after macros, inclusions and conditions, each with its file and line.
pub fn expand<F: Shelf>(alloc: Global, shelf: &mut F, list: &[u8]) -> Result<Bytes, Stop>
    ensures { Answers (shelf_change F.holds F.faults F.reads shelf.old shelf.new) (expand_plan list.now) result }
{
    let parts = parts_of(alloc, shelf, list)?;
    over_parts(alloc, list, parts.as_slice())
}

// The text of the build of parts.
fn over_parts(alloc: Global, list: &[u8], parts: &[Part]) -> Result<Bytes, Stop>
    requires { AreNumbered parts.now }
    ensures { Settles (build_answer expand_judge list.now parts.now) result }
{
    let build = built(alloc, list, parts)?;
    over_sources(alloc, build.files.as_slice(), build.sources.as_slice())
}

// The text of sources.
fn over_sources(alloc: Global, files: &[Name], sources: &[Tokens<'_>]) -> Result<Bytes, Stop>
    ensures { Settles (expand_judge files.now sources.now) result }
{
    Ok(text(alloc, files, sources)?)
}

#[tactic(auto, unfolding(crate::specs::Expand::expanded_text))]
fn text(alloc: Global, files: &[Name], all: &[Tokens<'_>]) -> Result<Bytes, Memory>
    ensures { IfOk result (λ text. text ≡ spec.expanded_text files.now all.now) }
{
    let mut text = Text::new(alloc);
    for tokens in all {
        push_statements(&mut text, files, tokens.list.as_slice())?;
    }
    Ok(text.finish())
}

// Appends a line for each statement that has a token besides its end.
#[tactic(auto, unfolding(crate::proofs::StatementLemmas::written), using(crate::proofs::StatementLemmas::written_list))]
fn push_statements(text: &mut Text, files: &[Name], list: &[Token<'_>]) -> Result<(), Memory>
    ensures { OnOk result (text.new ≡ text.old ++ list_text files.now list.now) }
{
    let mut begun = false;
    for token in list {
        push_token(text, files, begun, token)?;
        begun = !matches!(token.kind, Kind::End);
    }
    if begun { text.push(b"\n") } else { Ok(()) }
}

// Appends what a token gives: the place of a statement's first token, a space and the token, or the end of a line.
fn push_token(text: &mut Text, files: &[Name], begun: bool, token: &Token<'_>) -> Result<(), Memory>
    ensures { OnOk result (text.new ≡ text.old ++ token_text files.now begun token.now) }
{
    if matches!(token.kind, Kind::End) {
        return if begun { text.push(b"\n") } else { Ok(()) };
    }
    if !begun {
        push_place(text, files, token.pos)?;
    }
    text.push(b" ")?;
    text.push(token.text.as_slice())
}
