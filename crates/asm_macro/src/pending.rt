ghost use Rattle.std.specs.Prelude.{◌≡◌, [], ◌∷◌, ◌++◌, OnOk, IfOk, MatchOption, is_some};
ghost use Rattle.asm_macro.specs.Arguments.{arguments_behind};
ghost use Rattle.asm_macro.specs.Pending as spec;

use crate::limits::MOST_PENDING;
use crate::placed::Placed;
use asm_directive::{is_end, is_sign};
use goasm_base::Memory;
use std::alloc::Global;
use std::collections::VecDeque;
use std::marker::Model;

/// A token that is still to be read.
#[derive(Drop)]
pub struct Entry<'a> {
    pub placed: Placed<'a>,
    /// How many closing brackets behind it, up to the statement's end, close nothing behind it.
    pub behind: usize,
}

/// The tokens of a statement that are still to be read, the next one first. It keeps which brackets are closed, so
/// that no list is searched for its end where it has none.
#[derive(Drop)]
pub struct Pending<'a> {
    entries: VecDeque<Entry<'a>>,
}

impl<'a> Model for Pending<'a> {
    ghost use Rattle.std.specs.Prelude.{List};
    ghost use Rattle.asm_macro.specs.declared.placed.Placed.{Placed};
    ghost use Rattle.asm_macro.specs.Pending.{tokens_in, AreCounted};

    ghost Value = { List Placed };

    ghost view = { λ p. tokens_in p.entries.items };

    ghost invariant = { λ p. AreCounted p.entries.items };
}

impl<'a> Pending<'a> {
    /// No tokens. It takes no memory.
    pub fn new(alloc: Global) -> Self
        ensures { result ≡ [] }
    {
        Pending {
            entries: VecDeque::new(alloc),
        }
    }

    /// Puts a token before all others.
    pub fn push(&mut self, placed: Placed<'a>) -> Result<(), Memory>
        ensures { OnOk result (self.new ≡ placed.entry ∷ self.old) }
    {
        if self.entries.len() >= MOST_PENDING {
            return Err(Memory);
        }
        let behind = closers(&self.entries)?;
        self.entries.push_front(Entry { placed, behind })?;
        Ok(())
    }

    /// Takes the first token.
    pub fn pop(&mut self) -> Option<Placed<'a>>
        ensures { MatchOption result ((self.old ≡ []) × (self.new ≡ [])) (λ placed. self.old ≡ placed ∷ self.new) }
    {
        match self.entries.pop_front() {
            Some(entry) => Some(entry.placed),
            None => None,
        }
    }

    /// Whether a list of arguments comes next that is closed.
    pub fn begins_list(&self) -> bool
        ensures { result ≡ is_some (arguments_behind self.now) }
    {
        begins_list(&self.entries)
    }

    /// Puts tokens before all others, in their order.
    pub fn push_all(&mut self, tokens: Vec<Placed<'a>>) -> Result<(), Memory>
        ensures { OnOk result (self.new ≡ tokens.entry.items ++ self.old) }
    {
        let mut tokens = tokens;
        while let Some(placed) = tokens.pop() {
            self.push(placed)?;
        }
        Ok(())
    }
}

#[tactic(auto, unfolding(crate::specs::Arguments::arguments_behind))]
fn begins_list(entries: &VecDeque<Entry<'_>>) -> bool
    requires { spec.AreCounted entries.now.items }
    ensures { result ≡ is_some (arguments_behind (spec.tokens_in entries.now.items)) }
{
    match entries.front() {
        Some(entry) => is_sign(b'(', &entry.placed.token) && entry.behind > 0,
        None => false,
    }
}

// How many closing brackets close nothing.
#[tactic(auto, unfolding(crate::specs::Pending::closers))]
fn closers(entries: &VecDeque<Entry<'_>>) -> Result<usize, Memory>
    requires { spec.AreCounted entries.now.items }
    ensures { IfOk result (λ count. count ≡ spec.closers (spec.tokens_in entries.now.items)) }
{
    match entries.front() {
        Some(entry) => closers_from(&entry.placed, entry.behind),
        None => Ok(0),
    }
}

#[tactic(auto, unfolding(crate::specs::Pending::closers_from))]
fn closers_from(placed: &Placed<'_>, behind: usize) -> Result<usize, Memory>
    ensures { IfOk result (λ count. count ≡ spec.closers_from placed.now behind) }
{
    if is_end(&placed.token) {
        Ok(0)
    } else if is_sign(b')', &placed.token) {
        behind.checked_add(1).ok_or(Memory)
    } else if is_sign(b'(', &placed.token) {
        Ok(behind.saturating_sub(1))
    } else {
        Ok(behind)
    }
}
