ghost use Rattle.std.specs.Prelude.{◌≡◌, ℕ, List, ◌+◌, ◌≤◌, Option, length, IfOk, OnOk, IsErrOf};
ghost use Rattle.goasm_base.specs.Shelf.{Reads, Rose, ReadLog, Asks};

use crate::bytes::Bytes;
use crate::memory::Memory;
use std::alloc::Global;
use thiserror::Error;

/// Why a read gave no bytes.
#[derive(Clone, Copy, Debug, PartialEq, Eq, Error)]
pub enum ShelfNo {
    /// The file is absent or couldn't be read.
    #[error("cannot read")]
    Failed,
    /// There was no memory for the bytes.
    #[error("out of memory")]
    Memory,
}

impl From<Memory> for ShelfNo {
    ghost use Rattle.std.specs.Prelude.{◌≡◌};
    ghost use Rattle.goasm_base.specs.declared.shelf.ShelfNo.TheVariants.{Memory as OutOfMemory};

    ghost from_gives = { λ _ no. no ≡ OutOfMemory };

    fn from(_: Memory) -> Self {
        ShelfNo::Memory
    }
}

/// The files that a command reads.
pub trait Shelf {
    /// The files that it holds, by name, where it tells that.
    ghost holds: { Self → Option (List ℕ → Option (List ℕ)) };

    /// For each name, how many reads failed. A count that reaches the greatest `u64` stays there.
    ghost faults: { Self → List ℕ → ℕ };

    /// The reads that were made, those that failed among them: how many, and where it tells them their names.
    ghost reads: { Self → ReadLog };

    /// The first `most + 1` bytes of the named file, or all of them where there are fewer, so that a
    /// caller sees whether a file is longer than `most`.
    fn read(&mut self, alloc: Global, name: &[u8], most: usize) -> Result<Bytes, ShelfNo>
        ensures bytes { IfOk result (Reads (holds self.old) name.now most) }
        ensures short { IfOk result (λ bytes. length bytes ≤ most + 1) }
        ensures same { holds self.new ≡ holds self.old }
        ensures asked { Asks name.now (reads self.old) (reads self.new) result }

        // No count of faults falls. A read that failed is counted, and one that gave bytes leaves the counts.
        ensures faults { (n : List ℕ) → faults self.old n ≤ faults self.new n }
        ensures failed { IsErrOf result ShelfNo.Failed → Rose (faults self.old name.now) (faults self.new name.now) }
        ensures unfailed { OnOk result ((n : List ℕ) → faults self.new n ≡ faults self.old n) };
}
