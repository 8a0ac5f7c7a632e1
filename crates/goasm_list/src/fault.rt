use goasm_base::Memory;
use thiserror::Error;

/// Why bytes gave no build list.
#[derive(Clone, Copy, Debug, PartialEq, Eq, Error)]
pub enum ListNo {
    /// The first line that is refused, by its number from 1: one of no form, a `stub` line, a second `entry`, an
    /// outside name that an earlier line gives, or the 1,001st line that names a file.
    #[error("{0}: Q1")]
    Q1(u32),
    /// There was no memory for the lines.
    #[error("out of memory")]
    Memory,
}

impl From<Memory> for ListNo {
    ghost use Rattle.std.specs.Prelude.{◌≡◌};
    ghost use Rattle.goasm_list.specs.declared.fault.ListNo.TheVariants as numbers;

    ghost from_gives = { λ _ no. no ≡ numbers.Memory };

    fn from(_: Memory) -> Self {
        ListNo::Memory
    }
}
