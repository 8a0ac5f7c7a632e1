ghost use Rattle.std.specs.Prelude.{◌≡◌, map, IfOk};
ghost use Rattle.asm_parse.specs.Ahead as spec;

use crate::unread::Unread;
use asm_grammar::Reader;
use asm_lex::Token;
use goasm_base::Memory;
use std::alloc::Global;

/// What a statement begins with, behind its labels.
#[derive(Clone, Copy, Debug, PartialEq, Eq)]
pub enum Opening {
    /// Nothing, `DATA` or `GLOBL`: it doesn't belong to a function.
    Aside,
    /// `TEXT`, or the end of the file: a function ends before it.
    Text,
    /// `LOCK`.
    Lock,
    /// Anything else: it is code, if anything.
    Code,
}

/// What stands from a statement on, and what behind it: the first there that isn't aside.
#[derive(Clone, Copy, Debug, PartialEq, Eq)]
pub struct Outlook {
    pub here: Opening,
    pub behind: Opening,
}

/// The outlooks of statements, of the last one first.
#[tactic(auto, unfolding(crate::specs::Ahead::outlooks_back))]
pub fn outlooks(alloc: Global, statements: &[Unread<'_, '_>]) -> Result<Vec<Outlook>, Memory>
    ensures { IfOk result (λ all. all.items ≡ spec.outlooks_back (spec.seen statements.now)) }
{
    let mut all = Vec::new(alloc);
    let mut behind = Opening::Text;
    let mut at = statements.len();
    while at > 0 {
        at -= 1;
        let here = before(opening_of(statements[at].tokens), behind);
        all.push(Outlook { here, behind })?;
        behind = here;
    }
    Ok(all)
}

fn before(opening: Opening, behind: Opening) -> Opening
    ensures { result ≡ spec.before opening behind }
{
    match opening {
        Opening::Aside => behind,
        _ => opening,
    }
}

// What a statement begins with, behind its labels.
#[tactic(auto, unfolding(crate::specs::Ahead::opening_of))]
fn opening_of(tokens: &[Token<'_>]) -> Opening
    ensures { result ≡ spec.opening_of tokens.now }
{
    let mut reader = Reader::new(tokens);
    loop {
        match reader.eat_label() {
            Some(_) => {}
            None => break,
        }
    }
    if reader.is_ended() {
        return Opening::Aside;
    }
    match reader.eat_word() {
        Some(word) => opening_at(word.as_slice()),
        None => Opening::Code,
    }
}

fn opening_at(word: &[u8]) -> Opening
    ensures { result ≡ spec.opening_at word.now }
{
    match word {
        b"TEXT" => Opening::Text,
        b"DATA" | b"GLOBL" => Opening::Aside,
        b"LOCK" => Opening::Lock,
        _ => Opening::Code,
    }
}
