use goasm_base::Memory;
use thiserror::Error;

/// Why a statement becomes no instructions. Of the first four the lowest that stands is told.
#[derive(Clone, Copy, Debug, PartialEq, Eq, Error)]
pub enum SelectNo {
    /// The target has no such mnemonic. A suffix belongs to the mnemonic.
    #[error("S1")]
    S1,
    /// The statement is none that the target has, and names something as a register that is none.
    #[error("S2")]
    S2,
    /// There is no form for these operands, whatever their numbers are.
    #[error("S3")]
    S3,
    /// There is a form for these operands, but not with these numbers.
    #[error("S4")]
    S4,
    /// There was no memory for the instructions.
    #[error("out of memory")]
    Memory,
}

impl From<Memory> for SelectNo {
    ghost use Rattle.std.specs.Prelude.{◌≡◌};
    ghost use Rattle.asm_target.specs.declared.select_no.SelectNo.TheVariants as numbers;

    ghost from_gives = { λ _ no. no ≡ numbers.Memory };

    fn from(_: Memory) -> Self {
        SelectNo::Memory
    }
}
