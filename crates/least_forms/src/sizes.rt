use goasm_base::{List, Memory as MemoryError};
use thiserror::Error;

/// Forms and places of lines, one behind the other.
#[derive(Debug, Drop)]
pub struct Sizes {
    /// The form of each line: 0 the short one, 1 the long one.
    pub forms: List<u8>,
    /// Where each line begins, in bytes from the first.
    pub places: List<u32>,
    /// How many bytes all have together.
    pub length: u32,
}

/// Why lines have no assignment in which all branches reach.
#[derive(Clone, Copy, Debug, PartialEq, Eq, Error)]
pub enum FormsNo {
    /// In the least assignment the branch of line `.0` is the first that doesn't reach its goal, in its long form,
    /// which is `.1` bytes from it.
    #[error("line {0} lacks {1} bytes of reach")]
    Lost(usize, u32),
    #[error("out of memory")]
    Memory,
}

impl From<MemoryError> for FormsNo {
    ghost use Rattle.std.specs.Prelude.{◌≡◌};
    ghost use Rattle.least_forms.specs.declared.sizes.FormsNo.TheVariants.{Memory};

    ghost from_gives = { λ _ no. no ≡ Memory };

    fn from(_: MemoryError) -> Self {
        FormsNo::Memory
    }
}
