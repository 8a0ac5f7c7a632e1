ghost use Rattle.std.specs.Prelude.{◌≡◌, ◌+◌, ◌≤◌, ◌^◌, length, OnOk, OnErr, IfSome, None};
ghost use Rattle.std.specs.FinMap as map;
ghost use Rattle.machine_effect.specs.Memory as memory;
ghost use Rattle.machine_effect.specs.Memory.{IsFirstFrom, NoneFrom};

use crate::page::PAGE;
use crate::pages::{self, Pages};
use goasm_base::Memory;
use std::alloc::Global;
use std::collections::BTreeMap;
use std::marker::Model;

/// The memory of a machine: a finite map from addresses to bytes. A byte that isn't in the map can't be
/// accessed. It's kept in pages of 4,096 bytes, so that a word stored where its page stands takes no memory.
#[derive(Drop)]
pub struct Mem {
    pages: Pages,
    alloc: Global,
}

impl Model for Mem {
    ghost use Rattle.std.specs.Prelude.{ℕ};
    ghost use Rattle.std.specs.Ordering.{nat_cmp};
    ghost use Rattle.std.specs.FinMap as map;
    ghost use Rattle.std.specs.Coded.{coded_ℕ};
    ghost use Rattle.machine_effect.specs.Pages.{memory_of, HasLowPages};

    ghost Value = { map.FinMap nat_cmp ℕ };

    ghost coded = { map.code coded_ℕ coded_ℕ };

    ghost view = { λ m. memory_of m.pages.entries };

    ghost invariant = { λ m. HasLowPages m.pages };
}

impl Mem {
    /// An empty memory, which grows by `alloc`. It takes no memory.
    pub fn new(alloc: Global) -> Mem
        ensures { result ≡ map.empty }
    {
        Mem {
            pages: BTreeMap::new(alloc),
            alloc,
        }
    }

    /// Sets these bytes from an address on. After `Memory`, which comes only for want of memory, nothing has
    /// changed.
    pub fn put(&mut self, at: u64, bytes: &[u8]) -> Result<(), Memory>
        requires { at + length bytes.now ≤ 2 ^ 64 }
        ensures ok { OnOk result (self.new ≡ memory.put self.old at bytes.now) }
        ensures err { OnErr result (self.new ≡ self.old) }
    {
        let Some(more) = bytes.len().checked_sub(1) else {
            return Ok(());
        };
        // Only the pages take memory, and a page with no byte isn't seen.
        pages::make(
            self.alloc,
            &mut self.pages,
            at / PAGE,
            (at + more as u64) / PAGE,
        )?;
        pages::write(&mut self.pages, at, bytes);
        Ok(())
    }

    /// The byte at an address; `None` where the address isn't in the map.
    pub fn byte(&self, at: u64) -> Option<u8>
        ensures { result ≡ memory.byte_at self.now at }
    {
        pages::byte(&self.pages, at)
    }

    /// The first of the map's addresses, in rising order, that is at least `from`; `None` where there is none.
    pub fn next(&self, from: u64) -> Option<u64>
        ensures some { IfSome result (λ at. IsFirstFrom self.now from at) }
        ensures none { result ≡ None → NoneFrom self.now from }
    {
        pages::first_from(&self.pages, from)
    }
}
