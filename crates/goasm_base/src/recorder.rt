ghost use Rattle.std.specs.Prelude.{◌≡◌, []};

use crate::bytes::{Bytes, Name};
use crate::memory::Memory;
use crate::shelf::{Shelf, ShelfNo};
use std::alloc::Global;

/// A shelf that keeps the names that are asked for. Without memory for a name it makes no read.
#[derive(Drop)]
pub struct Recorder<F: Shelf + Drop> {
    /// The shelf that is read.
    pub shelf: F,
    /// The names that were asked for, in their order.
    pub names: Vec<Name>,
    /// How many reads there were, up to the greatest `u64`.
    pub reads: u64,
}

impl<F: Shelf + Drop> Recorder<F> {
    /// Keeps the names that are asked for from now on. It takes no memory.
    pub fn new(alloc: Global, shelf: F) -> Self
        ensures shelf { result.shelf ≡ shelf }
        ensures names { result.names.items ≡ [] }
        ensures reads { result.reads ≡ 0 }
    {
        Recorder {
            shelf,
            names: Vec::new(alloc),
            reads: 0,
        }
    }
}

impl<F: Shelf + Drop> Shelf for Recorder<F> {
    ghost use Rattle.std.specs.Prelude.{Some};

    ghost holds = { λ s. F.holds s.shelf };

    ghost faults = { λ s. F.faults s.shelf };

    ghost reads = { λ s. record { count = s.reads; names = Some s.names.items } };

    #[tactic(auto, unfolding(crate::specs::Shelf::with_read))]
    fn read(&mut self, alloc: Global, name: &[u8], most: usize) -> Result<Bytes, ShelfNo> {
        let asked = Name::from_slice(alloc, name)?;
        self.names.push(asked).map_err(Memory::from)?;
        self.reads = self.reads.saturating_add(1);
        self.shelf.read(alloc, name, most)
    }
}
