use goasm_base::{Memory, Pos};
use thiserror::Error;

/// Why a function has no layout.
#[derive(Clone, Copy, Debug, PartialEq, Eq, Error)]
pub enum LayoutNo {
    /// Its arguments and results take more than 2^30 bytes, or have more than 65,536 components; with the place of its
    /// declaration.
    #[error("Y1")]
    Y1(Pos),
    /// There was no memory for the layout.
    #[error("out of memory")]
    Memory,
}

impl From<Memory> for LayoutNo {
    ghost use Rattle.std.specs.Prelude.{◌≡◌};
    ghost use Rattle.abi0_layout.specs.declared.layout_no.LayoutNo.TheVariants as numbers;

    ghost from_gives = { λ _ no. no ≡ numbers.Memory };

    fn from(_: Memory) -> Self {
        LayoutNo::Memory
    }
}
