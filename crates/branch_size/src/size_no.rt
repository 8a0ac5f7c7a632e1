use goasm_base::{Memory as MemoryError, Pos};
use thiserror::Error;

/// Why the instructions of a function have no sizes.
#[derive(Clone, Copy, Debug, PartialEq, Eq, Error)]
pub enum SizeNo {
    /// A branch doesn't reach its goal in the function with its longest form: where it stands in the sources, and how
    /// many bytes its first instruction is from its goal.
    #[error("B1 {1}")]
    B1(Pos, u64),
    /// There was no memory for the sizes.
    #[error("out of memory")]
    Memory,
}

impl From<MemoryError> for SizeNo {
    ghost use Rattle.std.specs.Prelude.{◌≡◌};
    ghost use Rattle.branch_size.specs.declared.size_no.SizeNo.TheVariants.{Memory};

    ghost from_gives = { λ _ no. no ≡ Memory };

    fn from(_: MemoryError) -> Self {
        SizeNo::Memory
    }
}
