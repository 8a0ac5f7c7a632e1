ghost use Rattle.std.specs.Prelude.{◌≡◌, ◌↔◌, IsTrue};
ghost use Rattle.pcvalue.specs.Table.{IsPcTable};

use pcvalue::is_pc_table;
use std::marker::Model;

/// How many offsets of whole tables are kept.
const KEPT: usize = 1024;

/// The pc-value tables of a function table, with the offsets of some that were found whole, since many
/// functions share one: a linker writes equal tables once.
#[derive(Drop)]
pub struct PcTables<'a> {
    bytes: &'a [u8],
    quantum: u8,
    // At each index an offset whose remainder by the length it is; 0, which names no table, at first.
    whole: [u32; KEPT],
}

impl<'a> Model for PcTables<'a> {
    ghost use Rattle.std.specs.Prelude.{ℕ, slice_index};
    ghost use Rattle.pcvalue.specs.Table.{IsPcTable};
    ghost use Rattle.pclntab.specs.Ready.{PcTablesView};

    ghost Value = { PcTablesView };

    ghost view = { λ t. record { bytes = t.bytes.now; quantum = t.quantum } };

    ghost invariant = { λ t. (index : ℕ) → IsPcTable t.bytes.now (slice_index t.whole index) t.quantum };
}

impl<'a> PcTables<'a> {
    pub fn new(bytes: &'a [u8], quantum: u8) -> Self
        ensures { result ≡ record { bytes = bytes.now; quantum = quantum } }
    {
        PcTables {
            bytes,
            quantum,
            whole: [0; KEPT],
        }
    }

    /// Whether a whole table stands at the offset, or none is meant.
    pub fn has(&mut self, offset: u32) -> bool
        ensures has { IsTrue result ↔ IsPcTable self.old.bytes offset self.old.quantum }
        ensures same { self.new ≡ self.old }
    {
        let index = offset as usize % KEPT;
        if self.whole[index] == offset {
            return true;
        }
        if !is_pc_table(self.bytes, offset, self.quantum) {
            return false;
        }
        self.whole[index] = offset;
        true
    }
}
