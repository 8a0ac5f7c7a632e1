ghost use Rattle.std.specs.Prelude.{◌≡◌, ◌⊎◌, ◌+◌, ◌<◌, ◌≤◌, List, ℕ, ◌++◌, None, Ok, IfOk, length, vec_len};
ghost use Rattle.std.specs.Io.KnownBytes.{Consumes, IsAtEnd};

use goasm_base::{Bytes, Memory, Shelf, ShelfNo};
use std::alloc::Global;
use std::io::Read;
use std::rt::Files;
use std::{fs, str};

/// How many bytes one read of a file asks for.
const PIECE: usize = 65536;

/// The file system. What it holds isn't told, nor are the names that were asked for, and one count of faults serves for every
/// name.
#[derive(Drop)]
pub struct Disk<'a, R: Files> {
    rt: &'a R,
    /// How many reads there were.
    pub reads: u64,
    /// How many reads failed.
    pub faults: u64,
}

impl<'a, R: Files> Disk<'a, R> {
    pub fn new(rt: &'a R) -> Self
        ensures reads { result.reads ≡ 0 }
        ensures faults { result.faults ≡ 0 }
    {
        Disk {
            rt,
            reads: 0,
            faults: 0,
        }
    }
}

impl<'a, R: Files> Shelf for Disk<'a, R> {
    ghost holds = { λ _. None };

    ghost faults = { λ s _. s.faults };

    ghost reads = { λ s. record { count = s.reads; names = None } };

    #[tactic(auto, unfolding(goasm_base::specs::Shelf::with_read))]
    fn read(&mut self, alloc: Global, name: &[u8], most: usize) -> Result<Bytes, ShelfNo> {
        self.reads = self.reads.saturating_add(1);
        let result = read_file(self.rt, alloc, name, most);
        if let Err(ShelfNo::Failed) = result {
            self.faults = self.faults.saturating_add(1);
        }
        result
    }
}

// The first bytes of the file of this name. A name that isn't UTF-8 names no file.
fn read_file<R: Files>(rt: &R, alloc: Global, name: &[u8], most: usize) -> Result<Bytes, ShelfNo>
    ensures { IfOk result (λ bytes. length bytes ≤ most + 1) }
{
    let Ok(path) = str::from_utf8(name) else {
        return Err(ShelfNo::Failed);
    };
    let Ok(mut file) = fs::open(rt, path) else {
        return Err(ShelfNo::Failed);
    };
    read_first(&mut file, alloc, most)
}

/// What a reader gives, up to one byte more than `most`, or up to its end where that comes before.
#[tactic(auto, using(crate::proofs::DiskLemmas::read_on))]
pub fn read_first<R: Read>(reader: &mut R, alloc: Global, most: usize) -> Result<Bytes, ShelfNo>
    ensures short { IfOk result (λ bytes. length bytes ≤ most + 1) }
    ensures given { IfOk result (λ bytes. Consumes (R.remaining reader.old) (R.remaining reader.new) bytes) }
    ensures whole { IfOk result (λ bytes. (length bytes ≡ most + 1) ⊎ IsAtEnd (R.remaining reader.new)) }
{
    let mut bytes = Vec::new(alloc);
    while bytes.len() <= most {
        let want = (most - bytes.len()).min(PIECE - 1) + 1;
        if read_piece(reader, &mut bytes, want)? == 0 {
            return Ok(Bytes::new(bytes));
        }
    }
    Ok(Bytes::new(bytes))
}

// Appends what one read gives, up to this many bytes, and answers how many. There are none only at the reader's end.
fn read_piece<R: Read>(reader: &mut R, bytes: &mut Vec<u8>, want: usize) -> Result<usize, ShelfNo>
    requires some { 0 < want }
    requires few { want ≤ 65536 }
    ensures given { IfOk result (λ count. (piece : List ℕ) × (bytes.new.items ≡ bytes.old.items ++ piece)
        × (length piece ≡ count) × Consumes (R.remaining reader.old) (R.remaining reader.new) piece) }
    ensures few { IfOk result (λ count. count ≤ want) }
    ensures end { result ≡ Ok 0 → IsAtEnd (R.remaining reader.new) }
{
    let mut buffer = [0u8; PIECE];
    let piece = &mut buffer[..want];
    match reader.read(piece) {
        Ok(count) => {
            bytes
                .extend_from_slice(&piece[..count])
                .map_err(Memory::from)?;
            Ok(count)
        }
        Err(_) => Err(ShelfNo::Failed),
    }
}
