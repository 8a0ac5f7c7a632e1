ghost use Rattle.std.specs.Prelude.{◌≡◌, ◌+◌, ◌≤◌, List, ℕ, Bool, All, length, IfOk, IfErr, OnOk, MatchResult};
ghost use Rattle.asm_grammar.specs.Statements.{HasSizes, operand_count};
ghost use Rattle.asm_parse.specs.Refusals.{Gives, Moves};
ghost use Rattle.asm_parse.specs.Known.{IsKnown};
ghost use Rattle.asm_parse.specs.Placed.{IsIn, TokenIn, NoIn, StateIn};
ghost use Rattle.asm_parse.specs.Steps as spec;
ghost use Rattle.asm_parse.specs.Words.{IsAskable, Tells};

use crate::ahead::{Opening, Outlook};
use crate::parse_no::{ParseNo, refusal};
use crate::progress::Progress;
use crate::words::are_words;
use asm_grammar::{Cause, Form, Reader, Statement, Stop, lower, read_statement};
use asm_lex::Token;
use goasm_base::{Memory, Pos};
use std::alloc::Global;

/// A statement that was read, with what is refused of its form.
#[derive(Drop)]
struct Read<'a> {
    statement: Statement<'a>,
    found: Option<Cause>,
}

/// Reads, judges and keeps a statement.
#[tactic(auto, unfolding(crate::specs::Steps::step))]
pub fn step<'a, W: Fn(&[u8]) -> bool>(
    alloc: Global,
    progress: &mut Progress<'a>,
    outlook: Outlook,
    tokens: &[Token<'a>],
    is_word: &W,
) -> Result<(), ParseNo>
    requires { IsAskable (W.pre is_word.now) }
    ensures exact { (word : List ℕ → Bool) → Tells (W.post is_word.now) word → Moves (spec.step word progress.old outlook tokens.now) result progress.new }
    ensures known { OnOk result ((before : ℕ) → IsKnown before progress.old → IsKnown (before + length tokens.now) progress.new) }
    ensures placed { (count : ℕ) → All (TokenIn count) tokens.now → StateIn count progress.old → MatchResult result (λ _. StateIn count progress.new) (NoIn count) }
{
    let pos = match tokens {
        [] => return Ok(()),
        [first, ..] => first.pos,
    };
    let read = read_one(alloc, pos, tokens)?;
    if !fits(progress, outlook, &read.statement) || !names_words(is_word, &read.statement.form) {
        return Err(ParseNo::P1(pos));
    }
    let Read { statement, found } = read;
    match kept(progress, pos, statement, found)? {
        Some(cause) => Err(refusal(cause, pos)),
        None => Ok(()),
    }
}

#[tactic(auto, unfolding(crate::specs::Steps::read))]
fn read_one<'a>(alloc: Global, pos: Pos, tokens: &[Token<'a>]) -> Result<Read<'a>, ParseNo>
    ensures exact { Gives (spec.read pos tokens.now) result }
    ensures sized { IfOk result (λ read. HasSizes read.statement.form) }
    ensures few { IfOk result (λ read. operand_count read.statement.form ≤ length tokens.now + 1) }
    ensures placed { (count : ℕ) → IsIn count pos → IfErr result (NoIn count) }
{
    let mut reader = Reader::new(tokens);
    match read_statement(alloc, &mut reader) {
        Ok(statement) => Ok(Read {
            statement,
            found: reader.found(),
        }),
        Err(Stop::Form) => Err(ParseNo::P1(pos)),
        Err(Stop::Memory) => Err(ParseNo::Memory),
    }
}

// Whether the statement's labels stand before one of its function, and a LOCK before what it can belong to.
fn fits(progress: &Progress<'_>, outlook: Outlook, statement: &Statement<'_>) -> bool
    ensures { result ≡ spec.fits progress.now outlook statement.now }
{
    let serves = match outlook.here {
        Opening::Lock | Opening::Code => progress.is_in_function(),
        _ => false,
    };
    if !statement.labels.as_slice().is_empty() && !serves {
        return false;
    }
    match statement.form {
        Form::Lock => !progress.is_in_function() || matches!(outlook.behind, Opening::Code),
        _ => true,
    }
}

fn names_words<W: Fn(&[u8]) -> bool>(is_word: &W, form: &Form<'_>) -> bool
    requires { IsAskable (W.pre is_word.now) }
    ensures { (word : List ℕ → Bool) → Tells (W.post is_word.now) word → result ≡ spec.names_words word form.now }
{
    match form {
        Form::Code(code) => are_words(is_word, code.operands.as_slice()),
        _ => true,
    }
}

// Keeps a statement, and says what is refused of it, the lowest. Where something is, what was kept is never used.
fn kept<'a>(
    progress: &mut Progress<'a>,
    pos: Pos,
    statement: Statement<'a>,
    found: Option<Cause>,
) -> Result<Option<Cause>, Memory>
    ensures keeps { OnOk result (progress.new ≡ spec.kept progress.old pos statement.entry) }
    ensures cause { IfOk result (λ cause. cause ≡ spec.cause_of progress.old statement.entry found) }
{
    let Statement { labels, form } = statement;
    let are_new = progress.add_labels(labels.as_slice())?;
    let found = found_if(!are_new, Cause::DuplicateLabel, found);
    kept_form(progress, pos, form, found)
}

fn kept_form<'a>(
    progress: &mut Progress<'a>,
    pos: Pos,
    form: Form<'a>,
    found: Option<Cause>,
) -> Result<Option<Cause>, Memory>
    ensures keeps { OnOk result (progress.new ≡ spec.kept_form progress.old pos form.entry) }
    ensures cause { IfOk result (λ cause. cause ≡ spec.form_cause progress.old form.entry found) }
{
    let outside = !progress.is_in_function();
    match form {
        Form::Empty => Ok(found),
        Form::Lock => {
            progress.lock();
            Ok(found_if(outside, Cause::OutsideText, found))
        }
        Form::Text(line) => {
            progress.begin(pos, line)?;
            Ok(found)
        }
        Form::Data(line) => {
            let above = progress.add_data(pos, line)?;
            Ok(found_if(!above, Cause::DataOrder, found))
        }
        Form::Global(line) => {
            progress.add_global(pos, line)?;
            Ok(found)
        }
        Form::Code(line) => {
            progress.add_code(pos, line)?;
            Ok(found_if(outside, Cause::OutsideText, found))
        }
    }
}

fn found_if(is_refused: bool, cause: Cause, found: Option<Cause>) -> Option<Cause>
    ensures { result ≡ spec.found_if is_refused cause found }
{
    if is_refused {
        Some(lower(found, cause))
    } else {
        found
    }
}
