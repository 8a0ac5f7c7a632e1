ghost use Rattle.std.specs.Prelude.{◌≡◌, ◌==◌, ℕ, List, ◌+◌, ◌≤◌, true, false, length, take, drop, IfOk, OnOk, IsErrOf, Option, Some, option_copied};
ghost use Rattle.std.specs.List.{list_any};
ghost use Rattle.goasm_base.specs.Shelf.{Reads, Rose, Asks};
ghost use Rattle.goasm_base.specs.MemShelf.{file_named, read_fails, after_read, log_of};

use crate::bytes::{Bytes, Name};
use crate::shelf::{Shelf, ShelfNo};
use std::alloc::Global;
use std::marker::Model;

/// Files in memory. A read fails where its name is absent or its number, counted from 0, is listed.
#[derive(Debug, Drop)]
pub struct MemShelf {
    files: Vec<(Name, Bytes)>,
    failing: Vec<u32>,
    reads: u64,
    faults: u64,
}

impl Model for MemShelf {
    ghost use Rattle.goasm_base.specs.MemShelf.{ShelfState};

    ghost Value = { ShelfState };

    ghost view = { λ s. record { files = s.files.items; failing = s.failing.items; reads = s.reads; faults = s.faults } };
}

impl MemShelf {
    /// A shelf that holds these files; of several with one name the first. The reads whose numbers are
    /// in `failing` fail. It takes no memory.
    pub fn new(files: Vec<(Name, Bytes)>, failing: Vec<u32>) -> Self
        ensures { result ≡ record { files = files.items; failing = failing.items; reads = 0; faults = 0 } }
    {
        MemShelf {
            files,
            failing,
            reads: 0,
            faults: 0,
        }
    }
}

// The bytes of the first file of this name.
fn find<'a>(files: &'a [(Name, Bytes)], name: &[u8]) -> Option<&'a Bytes>
    ensures { option_copied result ≡ file_named files.now name.now }
{
    for (held, bytes) in files {
        if held.as_slice() == name {
            return Some(bytes);
        }
    }
    None
}

fn is_listed(failing: &[u32], number: u64) -> bool
    ensures { result ≡ list_any (λ listed. listed == number) failing.now }
{
    failing.iter().any(|listed| u64::from(*listed) == number)
}

impl Shelf for MemShelf {
    ghost holds = { λ s. Some (file_named s.files) };

    ghost faults = { λ s _. s.faults };

    ghost reads = { log_of };

    /// Fails exactly where the name is absent or the read's number is listed; otherwise only memory
    /// may be wanting.
    #[tactic(auto, unfolding(crate::specs::Shelf::with_read))]
    fn read(&mut self, alloc: Global, name: &[u8], most: usize) -> Result<Bytes, ShelfNo>
        ensures bytes { IfOk result (Reads (Some (file_named self.old.files)) name.now most) }
        ensures short { IfOk result (λ bytes. length bytes ≤ most + 1) }
        ensures same { Some (file_named self.new.files) ≡ Some (file_named self.old.files) }
        ensures asked { Asks name.now (log_of self.old) (log_of self.new) result }
        ensures faults { (n : List ℕ) → self.old.faults ≤ self.new.faults }
        ensures failed { IsErrOf result ShelfNo.Failed → Rose self.old.faults self.new.faults }
        ensures unfailed { OnOk result ((n : List ℕ) → self.new.faults ≡ self.old.faults) }

        ensures state { self.new ≡ after_read self.old name.now }
        ensures reads { OnOk result (read_fails self.old name.now ≡ false) }
        ensures fails { IsErrOf result ShelfNo.Failed → read_fails self.old name.now ≡ true }
        ensures memory { IsErrOf result ShelfNo.Memory → read_fails self.old name.now ≡ false }
    {
        let number = self.reads;
        self.reads = self.reads.saturating_add(1);
        if is_listed(self.failing.as_slice(), number) {
            self.faults = self.faults.saturating_add(1);
            return Err(ShelfNo::Failed);
        }
        match find(&self.files, name) {
            Some(file) => {
                let bytes = file.as_slice();
                let count = if most < bytes.len() {
                    most + 1
                } else {
                    bytes.len()
                };
                Ok(Bytes::from_slice(alloc, &bytes[..count])?)
            }
            None => {
                self.faults = self.faults.saturating_add(1);
                Err(ShelfNo::Failed)
            }
        }
    }
}
