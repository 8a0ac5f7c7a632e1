use goasm_base::Memory as MemoryError;
use thiserror::Error;

/// Why a function has no instructions at its address.
#[derive(Clone, Copy, Debug, PartialEq, Eq, Error)]
pub enum PlaceNo {
    /// The first line whose instructions can't hold the address that it refers to, by its number from 0.
    #[error("line {0} is too far from its goal")]
    Unreached(usize),
    /// There was no memory for the instructions.
    #[error("out of memory")]
    Memory,
}

impl From<MemoryError> for PlaceNo {
    ghost use Rattle.std.specs.Prelude.{◌≡◌};
    ghost use Rattle.link_code.specs.declared.place_no.PlaceNo.TheVariants.{Memory};

    ghost from_gives = { λ _ no. no ≡ Memory };

    fn from(_: MemoryError) -> Self {
        PlaceNo::Memory
    }
}
