ghost use Rattle.std.specs.Prelude.{◌≡◌, ◌+◌, ◌<◌, ◌≤◌, ℕ, None, All, length, IfOk, IfErr, OnOk, Ok};
ghost use Rattle.asm_lex.specs.Cut.{tokens_of};
ghost use Rattle.goasm_base.specs.Lines.{last_line};
ghost use Rattle.goasm_run.specs.declared.stop.Stop.TheVariants as stops;
ghost use Rattle.goasm_run.specs.Sources as spec;
ghost use Rattle.goasm_run.specs.Sources.{seen, names_of};
ghost use Rattle.goasm_run.specs.SourcesLexed.{IsLexed, IsFile, IsPart, AreLexed, with_part, PartStopped, LexStopped};

use crate::part::{Part, Role};
use crate::stop::Stop;
use crate::{limits, lines};
use asm_lex::{LexNo, Token, Tokens, lex};
use goasm_base::{List, Memory, Name, Pos};
use goasm_text::{Refusal, line_of};
use std::alloc::Global;

/// The tokens of a build.
#[derive(Drop)]
pub struct Sources<'a> {
    /// The sources that are assembled.
    pub sources: Vec<Tokens<'a>>,
    /// The files that sources include, by their names.
    pub includes: Vec<(Name, Tokens<'a>)>,
    /// The values of macros, by their names.
    pub defines: Vec<(Name, Tokens<'a>)>,
}

/// The names of a build's files, by their numbers: that of the list, and those that it names.
#[tactic(auto, unfolding(crate::specs::Sources::file_names))]
pub fn file_names(alloc: Global, list: &[u8], parts: &[Part]) -> Result<Vec<Name>, Stop>
    ensures names { IfOk result (λ names. names.items ≡ spec.file_names list.now parts.now) }
    ensures memory { IfErr result (λ stop. stop ≡ stops.Memory) }
{
    let mut names = Vec::new(alloc);
    names.push(Name::from_slice(alloc, list)?)?;
    for part in parts {
        match part.role {
            Role::Source | Role::Include => names.push(part.name.copy(alloc)?)?,
            Role::Value => {}
        }
    }
    Ok(names)
}

/// The tokens of all parts, or the first refusal in their order.
#[tactic(auto, unfolding(crate::specs::Sources::sources_of))]
pub fn lexed<'a>(alloc: Global, names: &[Name], parts: &'a [Part]) -> Result<Sources<'a>, Stop>
    requires named { All (λ part. part.file < length names.now) parts.now }
    requires lines { All (λ part. part.line ≤ last_line) parts.now }
    requires few { length (names_of parts.now) ≤ 1000 }
    ensures tokens { IfOk result (λ found. spec.lexed names.now parts.now ≡ Ok (seen found)) }
    ensures lexed { IfOk result (λ found. AreLexed (length names.now) (seen found)) }
    ensures few { IfOk result (λ found. length found.sources.items + length found.includes.items ≤ 1000) }
    ensures stopped { IfErr result (LexStopped (spec.lexed names.now parts.now)) }
{
    let mut done = Sources {
        sources: Vec::new(alloc),
        includes: Vec::new(alloc),
        defines: Vec::new(alloc),
    };
    for part in parts {
        add(alloc, names, &mut done, part)?;
    }
    Ok(done)
}

// Adds the tokens of a part.
fn add<'a>(
    alloc: Global,
    names: &[Name],
    done: &mut Sources<'a>,
    part: &'a Part,
) -> Result<(), Stop>
    requires named { part.now.file < length names.now }
    requires line { part.now.line ≤ last_line }
    requires lexed { AreLexed (length names.now) (seen done.old) }
    ensures tokens { OnOk result (seen done.new ≡ with_part (seen done.old) part.now.role part.now.name (spec.part_tokens part.now)) }
    ensures unrefused { OnOk result (spec.refusal_by part.now.role names.now part.now ≡ None) }
    ensures lexed { OnOk result (AreLexed (length names.now) (seen done.new)) }
    ensures stopped { IfErr result (PartStopped (spec.refusal_by part.now.role names.now part.now)) }
{
    let tokens = part_tokens(alloc, names, part)?;
    match part.role {
        Role::Source => Ok(done.sources.push(tokens)?),
        Role::Include => Ok(done.includes.push((part.name.copy(alloc)?, tokens))?),
        Role::Value => Ok(done.defines.push((part.name.copy(alloc)?, tokens))?),
    }
}

fn part_tokens<'a>(alloc: Global, names: &[Name], part: &'a Part) -> Result<Tokens<'a>, Stop>
    requires named { part.now.file < length names.now }
    requires line { part.now.line ≤ last_line }
    ensures tokens { IfOk result (λ tokens. tokens ≡ spec.part_tokens part.now) }
    ensures unrefused { OnOk result (spec.refusal_by part.now.role names.now part.now ≡ None) }
    ensures lexed { IfOk result (IsPart part.now.role (length names.now)) }
    ensures stopped { IfErr result (PartStopped (spec.refusal_by part.now.role names.now part.now)) }
{
    match part.role {
        Role::Source | Role::Include => file_tokens(alloc, names, part),
        Role::Value => value_tokens(alloc, names, part),
    }
}

// The tokens of a file.
#[tactic(auto, unfolding(crate::specs::Sources::file_refusal), using(crate::proofs::SourceLemmas::file_lexed, crate::proofs::FileLemmas::lex_named, crate::proofs::FileLemmas::lex_caused))]
fn file_tokens<'a>(alloc: Global, names: &[Name], part: &'a Part) -> Result<Tokens<'a>, Stop>
    requires { part.now.file < length names.now }
    ensures tokens { IfOk result (λ tokens. tokens ≡ tokens_of part.now.file part.now.bytes) }
    ensures unrefused { OnOk result (spec.file_refusal names.now part.now ≡ None) }
    ensures lexed { IfOk result (IsFile (length names.now)) }
    ensures stopped { IfErr result (PartStopped (spec.file_refusal names.now part.now)) }
{
    let bytes = part.bytes.as_slice();
    if bytes.len() > limits::SOURCE {
        return Err(Stop::Refused(lines::too_long(alloc, part.name.as_slice())?));
    }
    match lex(alloc, part.file, bytes) {
        Ok(tokens) => Ok(tokens),
        Err(LexNo::Memory) => Err(Stop::Memory),
        Err(no) => Err(Stop::Refused(line_of(alloc, &Refusal::Lex(no), names)?)),
    }
}

// The tokens of a value, on the line of the list where it stands.
#[tactic(auto, unfolding(crate::specs::Sources::value_refusal), using(crate::proofs::FileLemmas::lex_named_on, crate::proofs::FileLemmas::lex_caused_on))]
fn value_tokens<'a>(alloc: Global, names: &[Name], part: &'a Part) -> Result<Tokens<'a>, Stop>
    requires named { part.now.file < length names.now }
    requires line { part.now.line ≤ last_line }
    ensures tokens { IfOk result (λ tokens. tokens ≡ spec.tokens_on part.now.line (tokens_of part.now.file part.now.bytes)) }
    ensures unrefused { OnOk result (spec.value_refusal names.now part.now ≡ None) }
    ensures lexed { IfOk result (IsLexed (length names.now)) }
    ensures stopped { IfErr result (PartStopped (spec.value_refusal names.now part.now)) }
{
    match lex(alloc, part.file, part.bytes.as_slice()) {
        Ok(tokens) => Ok(tokens_on(alloc, part.line, &tokens)?),
        Err(LexNo::Memory) => Err(Stop::Memory),
        Err(no) => {
            let no = refusal_on(part.line, no);
            Err(Stop::Refused(line_of(alloc, &Refusal::Lex(no), names)?))
        }
    }
}

// The same place on another line.
fn place_on(line: u32, pos: Pos) -> Pos
    ensures { result ≡ spec.place_on line pos }
{
    Pos {
        file: pos.file,
        line,
    }
}

fn refusal_on(line: u32, no: LexNo) -> LexNo
    ensures { result ≡ spec.refusal_on line no }
{
    match no {
        LexNo::L1(pos) => LexNo::L1(place_on(line, pos)),
        LexNo::L2(pos) => LexNo::L2(place_on(line, pos)),
        LexNo::L3(pos) => LexNo::L3(place_on(line, pos)),
        LexNo::L4(pos) => LexNo::L4(place_on(line, pos)),
        LexNo::Memory => LexNo::Memory,
    }
}

fn token_on<'a>(line: u32, token: &Token<'a>) -> Token<'a>
    ensures { result ≡ spec.token_on line token.now }
{
    Token {
        pos: place_on(line, token.pos),
        glued: token.glued,
        kind: token.kind,
        text: token.text.copy(),
    }
}

// The same tokens on another line.
fn tokens_on<'a>(alloc: Global, line: u32, tokens: &Tokens<'a>) -> Result<Tokens<'a>, Memory>
    ensures { IfOk result (λ moved. moved ≡ spec.tokens_on line tokens.now) }
{
    let mut list = Vec::new(alloc);
    for token in tokens.list.as_slice() {
        list.push(token_on(line, token))?;
    }
    Ok(Tokens {
        file: tokens.file,
        list: List::new(list),
    })
}
