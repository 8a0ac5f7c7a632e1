ghost use Rattle.std.specs.Prelude.{◌≡◌, ◌≢◌, ◌≤◌, List, [], ℕ, Bool, All, length, sum_by, IfOk, IfErr, OnOk, MatchResult};
ghost use Rattle.asm_parse.specs.Refusals.{Gives, Moves};
ghost use Rattle.asm_parse.specs.Steps.{steps};
ghost use Rattle.asm_parse.specs.Ahead.{seen};
ghost use Rattle.asm_parse.specs.Parse as spec;
ghost use Rattle.asm_parse.specs.Words.{IsAskable, Tells};
ghost use Rattle.asm_parse.specs.Known.{IsKnown};
ghost use Rattle.asm_parse.specs.Valid.{IsValidUnit};
ghost use Rattle.asm_parse.specs.Placed.{TokenIn, UnitIn, NoIn, StateIn};
ghost use Rattle.asm_parse.specs.First.{refusal_of, IsFirstRefusal, of_statements, of_names};
ghost use Rattle.goasm_base.specs.Refusals.{Judges};

use crate::ahead::{Opening, Outlook, outlooks};
use crate::parse_no::ParseNo;
use crate::progress::Progress;
use crate::step::step;
use crate::unit::Unit;
use crate::unread::{Unread, statements_in};
use asm_lex::Tokens;
use std::alloc::Global;

const NOTHING_AHEAD: Outlook = Outlook {
    here: Opening::Text,
    behind: Opening::Text,
};

/// The unit that a source's tokens say, under these words of the target.
///
/// They are refused exactly where something in them is, with the first refusal: by statements, and at one statement the
/// one with the lowest number. What names stand for (P3 and P8) is judged only where nothing else is refused. Only want
/// of memory may come in place of any answer. No name of a symbol has a zero byte. Where each token is in one of so many
/// files and on a line of at most `LAST_LINE`, so is each place in a unit or a refusal.
pub fn parse<W: Fn(&[u8]) -> bool>(
    alloc: Global,
    tokens: &Tokens<'_>,
    is_word: W,
) -> Result<Unit, ParseNo>
    requires askable { IsAskable (W.pre is_word) }
    requires few { length tokens.now.list ≤ 4_000_000 }
    ensures exact { (word : List ℕ → Bool) → Tells (W.post is_word) word → Gives (spec.parsed word tokens.now.list) result }
    ensures valid { IfOk result IsValidUnit }
    ensures refused { (word : List ℕ → Bool) → Tells (W.post is_word) word → Judges ParseNo.Memory result (refusal_of word tokens.now.list) }
    ensures first { (word : List ℕ → Bool) → Tells (W.post is_word) word
        → IfErr result (λ refused. refused ≢ ParseNo.Memory → IsFirstRefusal word tokens.now.list refused) }
    ensures none { (word : List ℕ → Bool) → Tells (W.post is_word) word
        → OnOk result ((of_statements word tokens.now.list ≡ []) × (of_names word tokens.now.list ≡ [])) }
    ensures placed { (count : ℕ) → All (TokenIn count) tokens.now.list → MatchResult result (UnitIn count) (NoIn count) }
{
    let statements = statements_in(alloc, tokens.list.as_slice())?;
    let progress = read_all(alloc, statements.as_slice(), &is_word)?;
    progress.resolved(alloc, &is_word)
}

#[tactic(auto, unfolding(crate::specs::Parse::read_of))]
fn read_all<'a, W: Fn(&[u8]) -> bool>(
    alloc: Global,
    statements: &[Unread<'_, 'a>],
    is_word: &W,
) -> Result<Progress<'a>, ParseNo>
    requires { IsAskable (W.pre is_word.now) }
    ensures exact { (word : List ℕ → Bool) → Tells (W.post is_word.now) word → Gives (spec.read_of word (seen statements.now)) result }
    ensures known { IfOk result (IsKnown (sum_by length (seen statements.now))) }
    ensures placed { (count : ℕ) → All (All (TokenIn count)) (seen statements.now) → MatchResult result (StateIn count) (NoIn count) }
{
    let mut progress = Progress::new(alloc);
    read_into(alloc, &mut progress, statements, is_word)?;
    progress.end()?;
    Ok(progress)
}

// Reads and keeps statements in their order, up to the first that is refused.
fn read_into<'a, W: Fn(&[u8]) -> bool>(
    alloc: Global,
    progress: &mut Progress<'a>,
    statements: &[Unread<'_, 'a>],
    is_word: &W,
) -> Result<(), ParseNo>
    requires { IsAskable (W.pre is_word.now) }
    ensures exact { (word : List ℕ → Bool) → Tells (W.post is_word.now) word → Moves (steps word progress.old (seen statements.now)) result progress.new }
    ensures known { OnOk result (IsKnown 0 progress.old → IsKnown (sum_by length (seen statements.now)) progress.new) }
    ensures placed { (count : ℕ) → All (All (TokenIn count)) (seen statements.now) → StateIn count progress.old → MatchResult result (λ _. StateIn count progress.new) (NoIn count) }
{
    let mut outlooks = outlooks(alloc, statements)?;
    for statement in statements {
        let outlook = outlooks.pop().unwrap_or(NOTHING_AHEAD);
        step(alloc, progress, outlook, statement.tokens, is_word)?;
    }
    Ok(())
}
