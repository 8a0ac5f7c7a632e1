use goasm_base::{Memory as MemoryError, Name};
use thiserror::Error;

/// Why the data of a build is refused.
#[derive(Debug, Drop, Error)]
pub enum DataNo {
    /// A `DATA` writes into no data that a `GLOBL` declares, or past its end: the name of its symbol.
    #[error("N6")]
    N6(Name),
    /// There was no memory for the name.
    #[error("out of memory")]
    Memory,
}

impl From<MemoryError> for DataNo {
    ghost use Rattle.std.specs.Prelude.{◌≡◌};
    ghost use Rattle.link_names.specs.declared.data_no.DataNo.TheVariants.{Memory};

    ghost from_gives = { λ _ no. no ≡ Memory };

    fn from(_: MemoryError) -> Self {
        DataNo::Memory
    }
}
