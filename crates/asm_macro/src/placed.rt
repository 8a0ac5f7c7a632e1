use asm_lex::Token;

/// A token that is still to be read.
#[derive(Debug, Drop)]
pub struct Placed<'a> {
    /// The token, with the position that it has in the result.
    pub token: Token<'a>,
    /// How many levels of uses may still nest in it.
    pub levels: usize,
}
