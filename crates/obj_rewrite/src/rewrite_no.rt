use asm_target::SelectNo;
use goasm_base::{Memory as MemoryError, Pos};
use std::alloc::{AllocError, AllocFailed};
use thiserror::Error;

/// Why a function has no instructions. A frame that is too large is told before all others, and then the first statement that
/// is refused.
#[derive(Clone, Copy, Debug, PartialEq, Eq, Error)]
pub enum RewriteNo {
    /// The function's frame would have more than 1 MiB: the place of its `TEXT`, and the frame's bytes.
    #[error("RW1")]
    RW1(Pos, u64),
    /// The target has no instructions for a statement: its place, and why.
    #[error("{1}")]
    Select(Pos, SelectNo),
    /// There was no memory for the instructions.
    #[error("out of memory")]
    Memory,
}

impl From<MemoryError> for RewriteNo {
    ghost use Rattle.std.specs.Prelude.{◌≡◌};
    ghost use Rattle.obj_rewrite.specs.declared.rewrite_no.RewriteNo.TheVariants.{Memory};

    ghost from_gives = { λ _ no. no ≡ Memory };

    fn from(_: MemoryError) -> Self {
        RewriteNo::Memory
    }
}

impl From<AllocError> for RewriteNo {
    ghost use Rattle.std.specs.Prelude.{◌≡◌};
    ghost use Rattle.obj_rewrite.specs.declared.rewrite_no.RewriteNo.TheVariants.{Memory};

    ghost from_gives = { λ _ no. no ≡ Memory };

    fn from(_: AllocError) -> Self {
        RewriteNo::Memory
    }
}

impl<T: Drop> From<AllocFailed<T>> for RewriteNo {
    ghost use Rattle.std.specs.Prelude.{◌≡◌};
    ghost use Rattle.obj_rewrite.specs.declared.rewrite_no.RewriteNo.TheVariants.{Memory};

    ghost from_gives = { λ _ no. no ≡ Memory };

    fn from(_: AllocFailed<T>) -> Self {
        RewriteNo::Memory
    }
}
