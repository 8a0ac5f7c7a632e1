use goasm_base::{Memory, Pos};
use std::alloc::AllocFailed;
use thiserror::Error;

/// Why a build's sources have no expansion: the first refusal by statements in the order in which they are read, and
/// at one statement the one with the lowest number.
#[derive(Clone, Copy, Debug, PartialEq, Eq, Error)]
pub enum MacroNo {
    /// An included file is neither among the build's includes nor built in.
    #[error("M1")]
    M1(Pos),
    /// A use has another number of arguments than its macro has parameters.
    #[error("M2")]
    M2(Pos),
    /// A use of a macro with parameters has no arguments, or a list of them that its statement doesn't close.
    #[error("M3")]
    M3(Pos),
    /// Uses of macros and files nest more than 100 deep.
    #[error("M4")]
    M4(Pos),
    /// A directive has no known form, or conditions aren't balanced. A condition that is open at a file's end
    /// counts there, with its own place.
    #[error("M5")]
    M5(Pos),
    /// A name is defined that is defined already.
    #[error("M6")]
    M6(Pos),
    /// The results have more than 4,000,000 tokens, or there are more than 4,000,000 uses of macros and files.
    #[error("M7")]
    M7(Pos),
    /// There was no memory for the tokens.
    #[error("out of memory")]
    Memory,
}

impl From<Memory> for MacroNo {
    ghost use Rattle.std.specs.Prelude.{◌≡◌};
    ghost use Rattle.asm_macro.specs.declared.refusal.MacroNo.TheVariants as numbers;

    ghost from_gives = { λ _ no. no ≡ numbers.Memory };

    fn from(_: Memory) -> Self {
        MacroNo::Memory
    }
}

impl<T: Drop> From<AllocFailed<T>> for MacroNo {
    ghost use Rattle.std.specs.Prelude.{◌≡◌};
    ghost use Rattle.asm_macro.specs.declared.refusal.MacroNo.TheVariants as numbers;

    ghost from_gives = { λ _ no. no ≡ numbers.Memory };

    fn from(_: AllocFailed<T>) -> Self {
        MacroNo::Memory
    }
}
