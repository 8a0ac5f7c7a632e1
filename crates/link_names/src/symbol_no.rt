use goasm_base::{Memory as MemoryError, Name};
use thiserror::Error;

/// Why a symbol is refused that something refers to.
#[derive(Debug, Drop, Error)]
pub enum SymbolNo {
    /// It stands for nothing, or the entry stands for no function: its name.
    #[error("N2")]
    N2(Name),
    /// There was no memory for the name.
    #[error("out of memory")]
    Memory,
}

impl From<MemoryError> for SymbolNo {
    ghost use Rattle.std.specs.Prelude.{◌≡◌};
    ghost use Rattle.link_names.specs.declared.symbol_no.SymbolNo.TheVariants.{Memory};

    ghost from_gives = { λ _ no. no ≡ Memory };

    fn from(_: MemoryError) -> Self {
        SymbolNo::Memory
    }
}
