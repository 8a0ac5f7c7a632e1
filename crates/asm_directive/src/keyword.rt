ghost use Rattle.std.specs.Prelude.{◌≡◌};
ghost use Rattle.asm_directive.specs.Directives as spec;

use crate::tokens::says;
use asm_lex::Token;

/// The word of a directive.
#[derive(Clone, Copy)]
pub enum Keyword {
    Define,
    Undef,
    Include,
    Ifdef,
    Ifndef,
    Else,
    Endif,
    Line,
    Other,
}

pub fn keyword_of(words: &[Token<'_>]) -> Keyword
    ensures { result ≡ spec.keyword_of words.now }
{
    match words {
        [] => Keyword::Other,
        [word, ..] => word_keyword(word),
    }
}

#[tactic(auto, unfolding(crate::specs::Directives::keyword))]
fn word_keyword(word: &Token<'_>) -> Keyword
    ensures { result ≡ spec.keyword word.now }
{
    if says(b"define", word) {
        Keyword::Define
    } else if says(b"undef", word) {
        Keyword::Undef
    } else if says(b"include", word) {
        Keyword::Include
    } else if says(b"ifdef", word) {
        Keyword::Ifdef
    } else if says(b"ifndef", word) {
        Keyword::Ifndef
    } else if says(b"else", word) {
        Keyword::Else
    } else if says(b"endif", word) {
        Keyword::Endif
    } else if says(b"line", word) {
        Keyword::Line
    } else {
        Keyword::Other
    }
}
