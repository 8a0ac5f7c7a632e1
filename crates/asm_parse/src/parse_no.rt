ghost use Rattle.std.specs.Prelude.{◌≡◌};
ghost use Rattle.asm_parse.specs.Refusals as spec;

use asm_grammar::Cause;
use goasm_base::{Memory as MemoryError, Pos};
use std::alloc::{AllocError, AllocFailed};
use thiserror::Error;

/// Why a source has no unit: its first refusal by statements, and at one statement the one with the lowest number. P3
/// and P8 are judged only where no other stands in the file. Each has the place of its statement's first token.
#[derive(Clone, Copy, Debug, PartialEq, Eq, Error)]
pub enum ParseNo {
    /// A statement has no form.
    #[error("P1")]
    P1(Pos),
    /// A label stands before two statements of its function.
    #[error("P2")]
    P2(Pos),
    /// A bare name is neither a label of the function nor a word of the target.
    #[error("P3")]
    P3(Pos),
    /// An argument is named by its offset alone.
    #[error("P4")]
    P4(Pos),
    /// A `TEXT` leaves out the size of its arguments, and has no NOSPLIT.
    #[error("P5")]
    P5(Pos),
    /// A `DATA` doesn't stand above the one before it of the same symbol.
    #[error("P6")]
    P6(Pos),
    /// A divisor is 0.
    #[error("P7")]
    P7(Pos),
    /// An `n(PC)` passes a PCDATA or FUNCDATA, leaves its function, or falls between LOCK and its instruction.
    #[error("P8")]
    P8(Pos),
    /// Code stands outside of a function.
    #[error("P9")]
    P9(Pos),
    /// Code is given as bytes.
    #[error("P10")]
    P10(Pos),
    /// There was no memory for the unit.
    #[error("out of memory")]
    Memory,
}

/// The refusal for a cause at a place.
pub fn refusal(cause: Cause, pos: Pos) -> ParseNo
    ensures { result ≡ spec.refusal cause pos }
{
    match cause {
        Cause::DuplicateLabel => ParseNo::P2(pos),
        Cause::NamelessArgument => ParseNo::P4(pos),
        Cause::ArgumentSizeMissing => ParseNo::P5(pos),
        Cause::DataOrder => ParseNo::P6(pos),
        Cause::ZeroDivisor => ParseNo::P7(pos),
        Cause::OutsideText => ParseNo::P9(pos),
        Cause::RawCode => ParseNo::P10(pos),
    }
}

impl From<MemoryError> for ParseNo {
    ghost use Rattle.std.specs.Prelude.{◌≡◌};
    ghost use Rattle.asm_parse.specs.declared.parse_no.ParseNo.TheVariants.{Memory};

    ghost from_gives = { λ _ no. no ≡ Memory };

    fn from(_: MemoryError) -> Self {
        ParseNo::Memory
    }
}

impl From<AllocError> for ParseNo {
    ghost use Rattle.std.specs.Prelude.{◌≡◌};
    ghost use Rattle.asm_parse.specs.declared.parse_no.ParseNo.TheVariants.{Memory};

    ghost from_gives = { λ _ no. no ≡ Memory };

    fn from(_: AllocError) -> Self {
        ParseNo::Memory
    }
}

impl<T: Drop> From<AllocFailed<T>> for ParseNo {
    ghost use Rattle.std.specs.Prelude.{◌≡◌};
    ghost use Rattle.asm_parse.specs.declared.parse_no.ParseNo.TheVariants.{Memory};

    ghost from_gives = { λ _ no. no ≡ Memory };

    fn from(_: AllocFailed<T>) -> Self {
        ParseNo::Memory
    }
}
