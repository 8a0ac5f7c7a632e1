ghost use Rattle.std.specs.Prelude.{◌≡◌, ◌<◌, ◌≤◌, List, ℕ, Bool, All, length, IfOk, IfErr, IfSome, MatchResult};
ghost use Rattle.goasm_base.specs.Statements.{IsValidFunction, IsValidStatement, IsValidOperand, most_statements};
ghost use Rattle.asm_parse.specs.Refusals.{Gives, traversed};
ghost use Rattle.asm_parse.specs.Known.{AreFew, IsNumbered, IsKnownOperand, IsKnownLine, IsKnownBody, most_tokens};
ghost use Rattle.asm_parse.specs.Resolve as spec;
ghost use Rattle.asm_parse.specs.Placed.{IsIn, FunctionIn, StatementIn, BodyIn, LineIn, NoIn};
ghost use Rattle.asm_parse.specs.Words.{IsAskable, Tells};

use crate::lines::{Body, Line, is_aside};
use crate::numbering::Numbering;
use crate::parse_no::ParseNo;
use crate::progress::unprefixed;
use asm_grammar::{Draft, SymbolName, Word, name_of};
use goasm_base::{Function, List as Items, Memory, Name, Operand, Pos, Stmt};
use std::alloc::Global;

/// A function with its names resolved, or the first of its statements in which one names nothing.
#[tactic(auto, unfolding(crate::specs::Resolve::function_of))]
pub fn function_of<W: Fn(&[u8]) -> bool>(
    alloc: Global,
    symbols: &Numbering<'_>,
    is_word: &W,
    body: &Body<'_>,
) -> Result<Function, ParseNo>
    requires askable { IsAskable (W.pre is_word.now) }
    requires few { AreFew symbols.now }
    requires known { IsKnownBody symbols.now most_tokens body.now }
    ensures exact { (word : List ℕ → Bool) → Tells (W.post is_word.now) word → Gives (spec.function_of word symbols.now body.now) result }
    ensures valid { IfOk result (IsValidFunction (length symbols.now)) }
    ensures placed { (count : ℕ) → BodyIn count body.now → MatchResult result (FunctionIn count) (NoIn count) }
{
    let stmts = statements_of(alloc, symbols, is_word, body, body.lines.as_slice())?;
    Ok(Function {
        sym: symbol_number(symbols, &body.head.symbol),
        flags: body.head.flags,
        locals: body.head.locals,
        args: body.head.args,
        pos: body.pos,
        stmts,
    })
}

fn statements_of<W: Fn(&[u8]) -> bool>(
    alloc: Global,
    symbols: &Numbering<'_>,
    is_word: &W,
    body: &Body<'_>,
    lines: &[Line<'_>],
) -> Result<Items<Stmt>, ParseNo>
    requires askable { IsAskable (W.pre is_word.now) }
    requires few { AreFew symbols.now }
    requires short { length body.now.lines ≤ most_statements }
    requires known { All (IsKnownLine symbols.now) lines.now }
    ensures exact { (word : List ℕ → Bool) → Tells (W.post is_word.now) word → Gives (traversed (spec.statement_of word symbols.now body.now) lines.now) result }
    ensures valid { IfOk result (λ stmts. All (IsValidStatement (length symbols.now) (length body.now.lines)) stmts) }
    ensures count { IfOk result (λ stmts. length stmts ≡ length lines.now) }
    ensures placed { (count : ℕ) → All (LineIn count) lines.now → MatchResult result (λ stmts. All (StatementIn count) stmts) (NoIn count) }
{
    let mut stmts = Vec::new(alloc);
    for line in lines {
        let stmt = statement_of(alloc, symbols, is_word, body, line)?;
        stmts.push(stmt)?;
    }
    Ok(Items::new(stmts))
}

#[tactic(auto, unfolding(crate::specs::Resolve::statement_of))]
fn statement_of<W: Fn(&[u8]) -> bool>(
    alloc: Global,
    symbols: &Numbering<'_>,
    is_word: &W,
    body: &Body<'_>,
    line: &Line<'_>,
) -> Result<Stmt, ParseNo>
    requires askable { IsAskable (W.pre is_word.now) }
    requires few { AreFew symbols.now }
    requires short { length body.now.lines ≤ most_statements }
    requires known { IsKnownLine symbols.now line.now }
    ensures exact { (word : List ℕ → Bool) → Tells (W.post is_word.now) word → Gives (spec.statement_of word symbols.now body.now line.now) result }
    ensures valid { IfOk result (IsValidStatement (length symbols.now) (length body.now.lines)) }
    ensures placed { (count : ℕ) → IsIn count line.now.pos → MatchResult result (StatementIn count) (NoIn count) }
{
    let drafts = line.code.operands.as_slice();
    if has_unknown(is_word, body, drafts) {
        return Err(ParseNo::P3(line.pos));
    }
    let operands = operands_of(alloc, symbols, is_word, body, line, drafts)?;
    Ok(Stmt {
        pos: line.pos,
        lock: line.lock,
        op: line.code.op.owned(alloc)?,
        suffix: line.code.suffix,
        operands,
    })
}

fn operands_of<W: Fn(&[u8]) -> bool>(
    alloc: Global,
    symbols: &Numbering<'_>,
    is_word: &W,
    body: &Body<'_>,
    line: &Line<'_>,
    drafts: &[Draft<'_>],
) -> Result<Items<Operand>, ParseNo>
    requires askable { IsAskable (W.pre is_word.now) }
    requires few { AreFew symbols.now }
    requires short { length body.now.lines ≤ most_statements }
    requires known { All (IsKnownOperand symbols.now) drafts.now }
    ensures exact { (word : List ℕ → Bool) → Tells (W.post is_word.now) word → Gives (traversed (spec.operand_of word symbols.now body.now line.now) drafts.now) result }
    ensures valid { IfOk result (λ operands. All (IsValidOperand (length symbols.now) (length body.now.lines)) operands) }
    ensures placed { (count : ℕ) → IsIn count line.now.pos → IfErr result (NoIn count) }
{
    let mut operands = Vec::new(alloc);
    for draft in drafts {
        let operand = operand_of(alloc, symbols, is_word, body, line, draft)?;
        operands.push(operand)?;
    }
    Ok(Items::new(operands))
}

// Whether one of the operands names nothing.
fn has_unknown<W: Fn(&[u8]) -> bool>(is_word: &W, body: &Body<'_>, drafts: &[Draft<'_>]) -> bool
    requires { IsAskable (W.pre is_word.now) }
    ensures { (word : List ℕ → Bool) → Tells (W.post is_word.now) word → result ≡ spec.has_unknown word body.now drafts.now }
{
    for draft in drafts {
        if is_unknown(is_word, body, draft) {
            return true;
        }
    }
    false
}

fn is_unknown<W: Fn(&[u8]) -> bool>(is_word: &W, body: &Body<'_>, draft: &Draft<'_>) -> bool
    requires { IsAskable (W.pre is_word.now) }
    ensures { (word : List ℕ → Bool) → Tells (W.post is_word.now) word → result ≡ spec.is_unknown word body.now draft.now }
{
    match draft {
        Draft::Bare(name) => !is_word(name.as_slice()) && goal_of(body, name).is_none(),
        _ => false,
    }
}

fn operand_of<W: Fn(&[u8]) -> bool>(
    alloc: Global,
    symbols: &Numbering<'_>,
    is_word: &W,
    body: &Body<'_>,
    line: &Line<'_>,
    draft: &Draft<'_>,
) -> Result<Operand, ParseNo>
    requires askable { IsAskable (W.pre is_word.now) }
    requires few { AreFew symbols.now }
    requires short { length body.now.lines ≤ most_statements }
    requires known { IsKnownOperand symbols.now draft.now }
    ensures exact { (word : List ℕ → Bool) → Tells (W.post is_word.now) word → Gives (spec.operand_of word symbols.now body.now line.now draft.now) result }
    ensures valid { IfOk result (IsValidOperand (length symbols.now) (length body.now.lines)) }
    ensures placed { (count : ℕ) → IsIn count line.now.pos → IfErr result (NoIn count) }
{
    match draft {
        Draft::Imm(value) => Ok(Operand::Imm(*value)),
        Draft::Bare(name) => bare(alloc, is_word, body, line.pos, name),
        Draft::Mem { off, base, index } => Ok(Operand::Mem {
            off: *off,
            base: base.owned(alloc)?,
            index: owned_index(alloc, index)?,
        }),
        Draft::Symbol {
            symbol,
            off,
            address,
        } => Ok(Operand::Sym {
            sym: symbol_number(symbols, symbol),
            off: *off,
            address: *address,
        }),
        Draft::Arg { name, off, address } => Ok(Operand::Arg {
            name: name_of(alloc, name.as_slice())?,
            off: *off,
            address: *address,
        }),
        Draft::Auto { off, address } => Ok(Operand::Auto {
            off: *off,
            address: *address,
        }),
        Draft::Away(away) => match reached(body, line, *away) {
            Some(statement) => Ok(Operand::Label(statement as u32)),
            None => Err(ParseNo::P8(line.pos)),
        },
        Draft::Pair(first, second) => Ok(Operand::Pair(first.owned(alloc)?, second.owned(alloc)?)),
        Draft::Shifted { reg, kind, amount } => Ok(Operand::Shifted {
            reg: reg.owned(alloc)?,
            kind: *kind,
            amount: *amount,
        }),
    }
}

// A bare name is a word of the target, also where a label has it.
fn bare<W: Fn(&[u8]) -> bool>(
    alloc: Global,
    is_word: &W,
    body: &Body<'_>,
    pos: Pos,
    name: &Word<'_>,
) -> Result<Operand, ParseNo>
    requires askable { IsAskable (W.pre is_word.now) }
    requires short { length body.now.lines ≤ most_statements }
    ensures exact { (word : List ℕ → Bool) → Tells (W.post is_word.now) word → Gives (spec.bare word body.now pos name.now) result }
    ensures valid { (symbols : ℕ) → IfOk result (IsValidOperand symbols (length body.now.lines)) }
    ensures placed { (count : ℕ) → IsIn count pos → IfErr result (NoIn count) }
{
    if is_word(name.as_slice()) {
        return Ok(Operand::Word(name.owned(alloc)?));
    }
    match goal_of(body, name) {
        Some(statement) => Ok(Operand::Label(statement as u32)),
        None => Err(ParseNo::P3(pos)),
    }
}

fn owned_index(alloc: Global, index: &Option<(Word<'_>, u8)>) -> Result<Option<(Name, u8)>, Memory>
    ensures { IfOk result (λ owned. owned ≡ index.now) }
{
    match index {
        None => Ok(None),
        Some((name, scale)) => Ok(Some((name.owned(alloc)?, *scale))),
    }
}

/// The number of a symbol, which has one.
pub fn symbol_number(symbols: &Numbering<'_>, symbol: &SymbolName<'_>) -> u32
    requires few { AreFew symbols.now }
    requires known { IsNumbered symbols.now symbol.now }
    ensures exact { result ≡ spec.symbol_number symbols.now symbol.now }
    ensures within { result < length symbols.now }
{
    symbols.known_number(unprefixed(symbol.name.as_slice()), symbol.fixed) as u32
}

// The statement before which a label of the function stands.
fn goal_of(body: &Body<'_>, name: &Word<'_>) -> Option<usize>
    ensures exact { result ≡ spec.goal_of body.now name.now }
    ensures within { IfSome result (λ statement. statement < length body.now.lines) }
{
    let number = body.labels.number(name.as_slice(), false)?;
    statement_at(body, body.goals.as_slice().get(number).copied())
}

// A statement of the function, where there is one with this number.
fn statement_at(body: &Body<'_>, index: Option<usize>) -> Option<usize>
    ensures exact { result ≡ spec.statement_at body.now index }
    ensures within { IfSome result (λ statement. statement < length body.now.lines) }
{
    match index {
        Some(index) if index < body.lines.as_slice().len() => Some(index),
        _ => None,
    }
}

// The statement so many source instructions away.
fn reached(body: &Body<'_>, line: &Line<'_>, away: i64) -> Option<usize>
    ensures exact { result ≡ spec.reached body.now line.now away }
    ensures within { IfSome result (λ statement. statement < length body.now.lines) }
{
    if away.unsigned_abs() == 0 {
        if line.lock {
            return None;
        }
        return statement_at(body, Some(line.index));
    }
    if is_aside(line.code.op.as_slice()) {
        return None;
    }
    statement_at(body, goal_away(body, line.place, away))
}

// The statement that begins so many places away, where no PCDATA and no FUNCDATA stands between.
fn goal_away(body: &Body<'_>, place: usize, away: i64) -> Option<usize>
    ensures { result ≡ spec.goal_away body.now place away }
{
    let slots = body.slots.as_slice();
    match (slots.get(place), slots.get(target(place, away)?)) {
        (Some(own), Some(other)) if own.start == other.start => other.goal,
        _ => None,
    }
}

fn target(place: usize, away: i64) -> Option<usize>
    ensures { result ≡ spec.target place away }
{
    let distance = away.unsigned_abs() as usize;
    if away < 0 {
        place.checked_sub(distance)
    } else {
        place.checked_add(distance)
    }
}
