use goasm_base::{Memory, Pos};
use thiserror::Error;

/// Why a source has no tokens: its first refusal by lines, and at one line the one with the lowest number.
/// What follows a refusal on its line is judged too.
#[derive(Clone, Copy, Debug, PartialEq, Eq, Error)]
pub enum LexNo {
    /// The bytes aren't UTF-8, at the line of the first byte that isn't.
    #[error("L1")]
    L1(Pos),
    /// A text isn't closed on its line, or a comment isn't closed at all, at the line where it begins.
    #[error("L2")]
    L2(Pos),
    /// A number, or an escape in a text, has no known form.
    #[error("L3")]
    L3(Pos),
    /// A character can't stand there. A zero byte can't stand anywhere.
    #[error("L4")]
    L4(Pos),
    /// There was no memory for the tokens.
    #[error("out of memory")]
    Memory,
}

impl From<Memory> for LexNo {
    ghost use Rattle.std.specs.Prelude.{◌≡◌};
    ghost use Rattle.asm_lex.specs.declared.refusal.LexNo.TheVariants as numbers;

    ghost from_gives = { λ _ no. no ≡ numbers.Memory };

    fn from(_: Memory) -> Self {
        LexNo::Memory
    }
}
