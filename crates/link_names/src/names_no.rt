use goasm_base::{Memory as MemoryError, Name};
use thiserror::Error;

/// Why a build has no names.
#[derive(Debug, Drop, Error)]
pub enum NamesNo {
    /// A symbol is defined twice, and not both times with DUPOK: its name.
    #[error("N1")]
    N1(Name),
    /// There was no memory for the names.
    #[error("out of memory")]
    Memory,
}

impl From<MemoryError> for NamesNo {
    ghost use Rattle.std.specs.Prelude.{◌≡◌};
    ghost use Rattle.link_names.specs.declared.names_no.NamesNo.TheVariants.{Memory};

    ghost from_gives = { λ _ no. no ≡ Memory };

    fn from(_: MemoryError) -> Self {
        NamesNo::Memory
    }
}
