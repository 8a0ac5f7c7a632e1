ghost use Rattle.std.specs.Prelude.{◌≡◌, IfOk, IfErr};
ghost use Rattle.goasm_run.specs.Changes.{shelf_change};
ghost use Rattle.goasm_run.specs.Stops.{IsRead, ReadStopped};

use crate::stop::Stop;
use goasm_base::{Bytes, Shelf, ShelfNo};
use std::alloc::Global;

/// Reads the named file up to one byte past its limit.
pub fn read_named<F: Shelf>(
    alloc: Global,
    shelf: &mut F,
    name: &[u8],
    limit: usize,
) -> Result<Bytes, Stop>
    ensures read { IfOk result (IsRead (shelf_change F.holds F.faults F.reads shelf.old shelf.new) name.now limit) }
    ensures stopped { IfErr result (ReadStopped (shelf_change F.holds F.faults F.reads shelf.old shelf.new) name.now) }
    ensures same { F.holds shelf.new ≡ F.holds shelf.old }
{
    match shelf.read(alloc, name, limit) {
        Ok(bytes) => Ok(bytes),
        Err(ShelfNo::Memory) => Err(Stop::Memory),
        Err(ShelfNo::Failed) => Err(Stop::Unread(Bytes::from_slice(alloc, name)?)),
    }
}
