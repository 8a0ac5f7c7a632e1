ghost use Rattle.std.specs.Prelude.{◌≡◌, ◌∷◌, [], bytes_eq};
ghost use Rattle.asm_directive.specs.Tokens as spec;

use asm_lex::{Kind, Token};

#[tactic(auto, unfolding(crate::specs::Tokens::is_word))]
pub fn is_word(token: &Token<'_>) -> bool
    ensures { result ≡ spec.is_word token.now }
{
    matches!(token.kind, Kind::Word)
}

#[tactic(auto, unfolding(crate::specs::Tokens::is_text))]
pub fn is_text(token: &Token<'_>) -> bool
    ensures { result ≡ spec.is_text token.now }
{
    matches!(token.kind, Kind::Text)
}

/// The end of a statement.
#[tactic(auto, unfolding(crate::specs::Tokens::is_end))]
pub fn is_end(token: &Token<'_>) -> bool
    ensures { result ≡ spec.is_end token.now }
{
    matches!(token.kind, Kind::End)
}

/// The end of a line, or of the file.
#[tactic(auto, unfolding(crate::specs::Tokens::is_newline))]
pub fn is_newline(token: &Token<'_>) -> bool
    ensures { result ≡ spec.is_newline token.now }
{
    matches!(token.kind, Kind::End) && has_text(token, b"\n")
}

/// The sign of this one character.
#[tactic(auto, unfolding(crate::specs::Tokens::is_sign))]
pub fn is_sign(character: u8, token: &Token<'_>) -> bool
    ensures { result ≡ spec.is_sign character token.now }
{
    matches!(token.kind, Kind::Sign) && has_text(token, &[character])
}

/// This word.
#[tactic(auto, unfolding(crate::specs::Tokens::says))]
pub fn says(word: &[u8], token: &Token<'_>) -> bool
    ensures { result ≡ spec.says word.now token.now }
{
    matches!(token.kind, Kind::Word) && has_text(token, word)
}

fn has_text(token: &Token<'_>, text: &[u8]) -> bool
    ensures { result ≡ bytes_eq token.now.text text.now }
{
    token.text.as_slice() == text
}
