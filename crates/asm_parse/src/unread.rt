ghost use Rattle.std.specs.Prelude.{◌≡◌, position, IfOk};
ghost use Rattle.asm_parse.specs.Ahead.{seen};
ghost use Rattle.asm_parse.specs.Parse as spec;

use asm_lex::{Kind, Token};
use goasm_base::Memory;
use std::alloc::Global;

/// A statement that is still to be read.
#[derive(Clone, Copy)]
pub struct Unread<'t, 'a> {
    /// Its tokens without its end.
    pub tokens: &'t [Token<'a>],
}

/// The statements that these tokens are cut into by ends.
pub fn statements_in<'t, 'a>(
    alloc: Global,
    tokens: &'t [Token<'a>],
) -> Result<Vec<Unread<'t, 'a>>, Memory>
    ensures { IfOk result (λ all. seen all.items ≡ spec.statements_of tokens.now) }
{
    let mut all = Vec::new(alloc);
    let mut from = 0;
    'statements: while let Some(len) = first_end(&tokens[from..]) {
        all.push(Unread {
            tokens: &tokens[from..from + len],
        })?;
        from += len + 1;
    }
    all.push(Unread {
        tokens: &tokens[from..],
    })?;
    Ok(all)
}

fn first_end(tokens: &[Token<'_>]) -> Option<usize>
    ensures { result ≡ position spec.is_end tokens.now }
{
    tokens.iter().position(is_end)
}

fn is_end(token: &Token<'_>) -> bool
    ensures { result ≡ spec.is_end token.now }
{
    matches!(token.kind, Kind::End)
}
