ghost use Rattle.std.specs.Prelude.{◌≡◌, ◌<◌, ◌≤◌, ◌*◌, ◌^◌, length, slice_index, IfOk};
ghost use Rattle.std.specs.List.Sorted.{IsNonDecreasing};
ghost use Rattle.image_marks.specs.Buckets.{AreBuckets, IsOwner};

use goasm_base::Memory;
use std::alloc::Global;
use std::marker::Model;

/// For how many bytes a number is kept.
const BUCKET_SIZE: u32 = 4096;

/// Finds the function that an offset of a text belongs to. Of each 4,096 bytes it keeps the number of the function that the first
/// of them belongs to, from which it's a few steps to that of any other.
///
/// A function is told by its number in a list of the offsets at which functions begin, in order, which is handed in anew at each
/// call. It goes up to the next function's beginning, the last one without end. Contracts see the numbers that are kept.
#[derive(Drop)]
pub struct Buckets {
    first: Vec<u32>,
}

impl Model for Buckets {
    ghost use Rattle.std.specs.Prelude.{ℕ, List};

    ghost Value = { List ℕ };

    ghost view = { λ b. b.first.items };
}

impl Buckets {
    /// The table of a text of `size` bytes whose functions begin at these offsets.
    pub fn new(alloc: Global, entries: &[u32], size: u32) -> Result<Buckets, Memory>
        requires some { 0 < length entries.now }
        requires few { length entries.now < 2 ^ 32 }
        requires first { slice_index entries.now 0 ≡ 0 }
        requires ordered { IsNonDecreasing entries.now }
        ensures buckets { IfOk result (λ buckets. AreBuckets entries.now buckets) }
        ensures size { IfOk result (λ buckets. size < 4096 * length buckets) }
    {
        let mut first = Vec::new(alloc);
        let mut number = 0;
        for bucket in 0..size / BUCKET_SIZE + 1 {
            number = forward(entries, number, BUCKET_SIZE * bucket);
            first.push(number)?;
        }
        Ok(Buckets { first })
    }

    /// The number of the function that the offset belongs to, the last one that begins at or before it. That takes a few steps within
    /// the text that the table is for, and is right behind it too.
    pub fn find(&self, entries: &[u32], offset: u32) -> u32
        requires { AreBuckets entries.now self.now }
        ensures { IsOwner entries.now offset result }
    {
        let bucket = (self.first.len() - 1).min((offset / BUCKET_SIZE) as usize);
        forward(entries, self.first[bucket], offset)
    }
}

// The last function that begins at or before the offset, where this one does.
fn forward(entries: &[u32], from: u32, offset: u32) -> u32
    requires few { length entries.now < 2 ^ 32 }
    requires ordered { IsNonDecreasing entries.now }
    requires inside { from < length entries.now }
    requires low { slice_index entries.now from ≤ offset }
    ensures { IsOwner entries.now offset result }
{
    let count = entries.len() as u32;
    for number in from + 1..count {
        if entries[number as usize] > offset {
            return number - 1;
        }
    }
    count - 1
}
