ghost use Rattle.std.specs.Prelude.{◌≡◌, ◌≤◌, length, None};
ghost use Rattle.asm_grammar.specs.Reader as spec;
ghost use Rattle.asm_grammar.specs.Reader.{Reads, Takes, Finds, Eats};
ghost use Rattle.std.specs.List.{prefix_len};
ghost use Rattle.asm_grammar.specs.Tokens as tokens;
ghost use Rattle.asm_grammar.specs.Expressions as expressions;

use crate::cause::{Cause, lower};
use crate::operator::{Group, Operator, is_prefix, operator_of};
use crate::stop::Stop;
use crate::word::Word;
use asm_lex::{Kind, Token};
use std::marker::Model;

/// A statement that is read from left to right.
#[derive(Drop)]
pub struct Reader<'t, 'a> {
    // The tokens that are left.
    rest: &'t [Token<'a>],
    // The lowest cause that was found.
    found: Option<Cause>,
}

impl<'t, 'a> Model for Reader<'t, 'a> {
    ghost use Rattle.asm_grammar.specs.Reader.{Reading};

    ghost Value = { Reading };

    ghost view = { λ r. record { rest = r.rest.now; found = r.found } };
}

impl<'t, 'a> Reader<'t, 'a> {
    /// A reader at the first of these tokens.
    pub fn new(rest: &'t [Token<'a>]) -> Self
        ensures { result ≡ record { rest = rest.now; found = None } }
    {
        Reader { rest, found: None }
    }

    /// The lowest cause that was found.
    pub fn found(&self) -> Option<Cause>
        ensures { result ≡ self.now.found }
    {
        self.found
    }

    /// Whether the statement is read.
    pub fn is_ended(&self) -> bool
        ensures { result ≡ spec.is_empty self.now.rest }
    {
        self.rest.is_empty()
    }

    /// Notes that something is refused.
    pub fn note(&mut self, cause: Cause)
        ensures { Takes (spec.note cause) self.old tt self.new }
    {
        self.found = Some(lower(self.found, cause));
    }

    /// Passes a sign where it is next.
    #[tactic(auto, unfolding(crate::specs::Reader::eat))]
    pub fn eat(&mut self, sign: &[u8]) -> bool
        ensures { Eats (spec.eat sign.now) self.old result self.new }
    {
        match self.rest {
            [token, rest @ ..] if is_sign(token, sign) => {
                self.rest = rest;
                true
            }
            _ => false,
        }
    }

    /// Passes a sign that has to be next.
    #[tactic(auto, unfolding(crate::specs::Reader::expect))]
    pub fn expect(&mut self, sign: &[u8]) -> Result<(), Stop>
        ensures { Reads (spec.expect sign.now) self.old result self.new }
    {
        if self.eat(sign) {
            Ok(())
        } else {
            Err(Stop::Form)
        }
    }

    /// Takes a word where one is next.
    #[tactic(auto, unfolding(crate::specs::Reader::next))]
    pub fn eat_word(&mut self) -> Option<Word<'a>>
        ensures { Finds spec.eat_word self.old result self.new }
    {
        match self.rest {
            [token, rest @ ..] if is_word(token) => {
                self.rest = rest;
                Some(Word::new(token.text.as_slice()))
            }
            _ => None,
        }
    }

    /// Takes a word that has to be next.
    #[tactic(auto, unfolding(crate::specs::Reader::word))]
    pub fn word(&mut self) -> Result<Word<'a>, Stop>
        ensures { Reads spec.word self.old result self.new }
    {
        match self.eat_word() {
            Some(word) => Ok(word),
            None => Err(Stop::Form),
        }
    }

    /// Takes a text where one is next, as it is written.
    #[tactic(auto, unfolding(crate::specs::Reader::next))]
    pub fn eat_text(&mut self) -> Option<Word<'a>>
        ensures { Finds spec.eat_text self.old result self.new }
    {
        match self.rest {
            [token, rest @ ..] if is_text(token) => {
                self.rest = rest;
                Some(Word::new(token.text.as_slice()))
            }
            _ => None,
        }
    }

    /// Takes a number that has to be next.
    #[tactic(auto, unfolding(crate::specs::Reader::next, crate::specs::Reader::number))]
    pub fn number(&mut self) -> Result<u64, Stop>
        ensures { Reads spec.number self.old result self.new }
    {
        match self.rest {
            [token, rest @ ..] => match token.kind {
                Kind::Number(value) => {
                    self.rest = rest;
                    Ok(value)
                }
                _ => Err(Stop::Form),
            },
            [] => Err(Stop::Form),
        }
    }

    /// Takes an operator of a group where one is next.
    #[tactic(auto, unfolding(crate::specs::Reader::next))]
    pub fn eat_operator(&mut self, group: Group) -> Option<Operator>
        ensures { Finds (spec.eat_operator group) self.old result self.new }
    {
        match self.rest {
            [token, rest @ ..] => {
                let operator = operator_in(group, token)?;
                self.rest = rest;
                Some(operator)
            }
            [] => None,
        }
    }

    /// Takes a sign that shifts a register, where one is next, as its kind.
    #[tactic(auto, unfolding(crate::specs::Reader::next))]
    pub fn eat_shift(&mut self) -> Option<u8>
        ensures { Finds spec.eat_shift self.old result self.new }
    {
        match self.rest {
            [token, rest @ ..] => {
                let kind = shift_in(token)?;
                self.rest = rest;
                Some(kind)
            }
            [] => None,
        }
    }

    /// Whether an operand ends here: the statement is read, or a comma is next.
    pub fn is_over(&self) -> bool
        ensures { result ≡ spec.is_over self.now.rest }
    {
        match self.rest {
            [] => true,
            [token, ..] => is_sign(token, b","),
        }
    }

    /// Whether an offset is next.
    pub fn sees_offset(&self) -> bool
        ensures { result ≡ spec.sees_offset self.now.rest }
    {
        match self.rest {
            [] => false,
            [token, ..] => is_sign(token, b"+") || is_sign(token, b"-"),
        }
    }

    /// Whether a base is next: a bracket with a word in it.
    pub fn sees_base(&self) -> bool
        ensures { result ≡ spec.sees_base self.now.rest }
    {
        match self.rest {
            [token, next, ..] => is_sign(token, b"(") && is_word(next),
            _ => false,
        }
    }

    /// Whether a word is next.
    pub fn sees_word(&self) -> bool
        ensures { result ≡ spec.sees_word self.now.rest }
    {
        match self.rest {
            [token, ..] => is_word(token),
            [] => false,
        }
    }

    /// Takes a label where one is next: a word with a colon behind it.
    #[tactic(auto, unfolding(crate::specs::Reader::eat_label))]
    pub fn eat_label(&mut self) -> Option<Word<'a>>
        ensures { Finds spec.eat_label self.old result self.new }
    {
        match self.rest {
            [token, next, rest @ ..] if is_word(token) && is_sign(next, b":") => {
                self.rest = rest;
                Some(Word::new(token.text.as_slice()))
            }
            _ => None,
        }
    }

    /// Takes the signs before a value.
    #[tactic(auto, unfolding(crate::specs::Expressions::prefixes))]
    pub fn prefixes(&mut self) -> &'t [Token<'a>]
        ensures { Takes expressions.prefixes self.old result.now self.new }
    {
        let count = prefix_count(self.rest);
        let signs = &self.rest[..count];
        self.rest = &self.rest[count..];
        signs
    }
}

fn prefix_count(tokens: &[Token<'_>]) -> usize
    ensures len { result ≡ prefix_len expressions.is_prefix_token tokens.now }
    ensures within { result ≤ length tokens.now }
{
    tokens
        .iter()
        .take_while(|token| is_prefix_token(token))
        .count()
}

fn is_prefix_token(token: &Token<'_>) -> bool
    ensures { result ≡ expressions.is_prefix_token token.now }
{
    match token.kind {
        Kind::Sign => is_prefix(token.text.as_slice()),
        _ => false,
    }
}

fn is_sign(token: &Token<'_>, sign: &[u8]) -> bool
    ensures { result ≡ tokens.is_sign sign.now token.now }
{
    match token.kind {
        Kind::Sign => token.text.as_slice() == sign,
        _ => false,
    }
}

fn is_word(token: &Token<'_>) -> bool
    ensures { result ≡ tokens.is_word token.now }
{
    matches!(token.kind, Kind::Word)
}

fn is_text(token: &Token<'_>) -> bool
    ensures { result ≡ tokens.is_text token.now }
{
    matches!(token.kind, Kind::Text)
}

fn operator_in(group: Group, token: &Token<'_>) -> Option<Operator>
    ensures { result ≡ spec.operator_in group (tokens.sign_of token.now) }
{
    match token.kind {
        Kind::Sign => operator_of(group, token.text.as_slice()),
        _ => None,
    }
}

fn shift_in(token: &Token<'_>) -> Option<u8>
    ensures { result ≡ spec.shift_in (tokens.sign_of token.now) }
{
    match token.kind {
        Kind::Sign => shift_kind(token.text.as_slice()),
        _ => None,
    }
}

fn shift_kind(sign: &[u8]) -> Option<u8>
    ensures { result ≡ spec.shift_kind sign.now }
{
    match sign {
        b"<<" => Some(0),
        b">>" => Some(1),
        b"->" => Some(2),
        _ => None,
    }
}
