ghost use Rattle.std.specs.Prelude.{◌≡◌, ℕ, ◌^◌, ◌<◌, ◌≤◌, ◌↔◌, None, length, IsTrue, IsSome, IfOk, IfSome, IfNone, MatchResult};
ghost use Rattle.std.specs.Option.{option_map};
ghost use Rattle.memchr.specs.Find.{IsLastByte, is_byte};
ghost use Rattle.pclntab.specs.Words.{u32_at};
ghost use Rattle.pclntab.specs.Places.{func_count, quantum, text_start, unit_field};
ghost use Rattle.pclntab.specs.Table.{IsTable};
ghost use Rattle.pclntab.specs.Faults.{Judges, table_fault};
ghost use Rattle.pclntab.specs.Func.{HasPc, entry_of, func_at, file_name, numbered_from};
ghost use Rattle.pclntab.specs.Ready.{IsReady, IsBegun};

use crate::fault::TableNo;
use crate::func::Func;
use crate::judge::judge;
use crate::names::ends_at;
use crate::places;
use crate::words::u32_at;
use memchr::memrchr;
use std::marker::Model;

/// A function table that was read. Contracts see its bytes.
#[derive(Drop)]
pub struct Table<'a> {
    bytes: &'a [u8],
    // The place of the last zero byte.
    last_zero: Option<usize>,
}

impl<'a> Model for Table<'a> {
    ghost use Rattle.std.specs.Prelude.{ℕ, List};
    ghost use Rattle.pclntab.specs.Ready.{IsReadTo};

    ghost Value = { List ℕ };

    ghost view = { λ t. t.bytes.now };

    ghost invariant = { λ t. IsReadTo t.bytes.now t.last_zero };
}

impl<'a> Table<'a> {
    /// Reads the table that the bytes are, and keeps the slice. It is refused exactly where the bytes are no table, in the
    /// Go 1.20 form or in the Go 1.18 form, with their first fault in the order of reading.
    pub fn read(bytes: &'a [u8]) -> Result<Table<'a>, TableNo>
        requires { length bytes.now < 2 ^ 32 }
        ensures table { IfOk result (λ table. table ≡ bytes.now) }
        ensures form { MatchResult result (λ _. IsTable bytes.now) (λ _. IsTable bytes.now → ⊥) }
        ensures exact { Judges result (table_fault bytes.now) }
        ensures faultless { IsTable bytes.now ↔ (table_fault bytes.now ≡ None) }
    {
        judge(bytes)?;
        Ok(Table {
            bytes,
            last_zero: memrchr(0, bytes),
        })
    }

    /// How many functions it has.
    pub fn count(&self) -> u32
        ensures { result ≡ func_count self.now }
    {
        places::func_count(self.bytes) as u32
    }

    /// The size in bytes of the steps by which its pc-value tables count places.
    pub fn quantum(&self) -> u8
        ensures { result ≡ quantum self.now }
    {
        places::quantum(self.bytes)
    }

    /// The address of the text.
    pub fn text_start(&self) -> u64
        ensures { result ≡ text_start self.now }
    {
        places::text_start(self.bytes)
    }

    /// Whether the number stands for a file of the function with this index: it isn't negative, and its word and its name,
    /// up to a zero byte, lie within the bytes. It takes constant time.
    pub fn has_file(&self, index: u32, number: i32) -> bool
        requires { index < func_count self.now }
        ensures { IsTrue result ↔ IsSome (numbered_from self.now (u32_at self.now (unit_field self.now index)) number) }
    {
        let bytes = self.bytes;
        if number < 0 {
            return false;
        }
        let unit = u32_at(bytes, places::unit_field(bytes, index));
        has_name(bytes, number as u64 + u64::from(unit), self.last_zero)
    }

    /// The function with this number, from 0 in the order of entries.
    pub fn at(&self, index: u32) -> Func<'a>
        requires { index < func_count self.now }
        ensures { result ≡ record { bytes = self.now; index = index } }
    {
        Func::new(self.bytes, index)
    }

    /// The function whose range has the address. `None` exactly where no range has it.
    pub fn find(&self, pc: u64) -> Option<Func<'a>>
        ensures exact { result ≡ option_map (λ index. record { bytes = self.now; index = index }) (func_at self.now pc) }
        ensures some { IfSome result (λ func. HasPc self.now func.index pc) }
        ensures none { IfNone result ((index : ℕ) → index < func_count self.now → HasPc self.now index pc → ⊥) }

        // The ranges don't overlap, and cover the text from the first entry to the end of the last function.
        ensures one { IfSome result (λ func. (index : ℕ) → index < func_count self.now → HasPc self.now index pc
            → index ≡ func.index) }
        ensures covered { IfNone result (entry_of self.now 0 ≤ pc → entry_of self.now (func_count self.now) ≤ pc) }
    {
        let _ = &self.bytes;
        self.search(pc)
    }

    // Only the last function that begins at or before the address can have it. Of equal entries that is the last one; the
    // ranges of the others are empty.
    #[tactic(auto, using(crate::proofs::SearchLemmas::before_all, crate::proofs::SearchLemmas::last_found, crate::proofs::SearchLemmas::last_without))]
    fn search(&self, pc: u64) -> Option<Func<'a>>
        ensures exact { result ≡ option_map (λ index. record { bytes = self.now; index = index }) (func_at self.now pc) }
        ensures some { IfSome result (λ func. (func.index < func_count self.now) × HasPc self.now func.index pc) }
        ensures none { IfNone result ((index : ℕ) → index < func_count self.now → HasPc self.now index pc → ⊥) }
    {
        let begun = self.begun_by(pc);
        if begun == 0 {
            return None;
        }
        let last = self.at(begun - 1);
        if last.has(pc) { Some(last) } else { None }
    }

    // How many functions begin at or before the address.
    fn begun_by(&self, pc: u64) -> u32
        ensures { IsBegun self.now pc result }
    {
        let _ = &self.bytes;
        let mut low = 0;
        let mut high = self.count();
        while low < high {
            let middle = low + (high - low) / 2;
            if self.at(middle).entry() <= pc {
                low = middle + 1;
            } else {
                high = middle;
            }
        }
        low
    }
}

// Whether the word and the name of the file with this number in the table of units lie within the bytes.
#[tactic(auto, unfolding(crate::specs::Func::file_name))]
fn has_name(bytes: &[u8], number: u64, last_zero: Option<usize>) -> bool
    requires ready { IsReady bytes.now }
    requires number { number < 2 ^ 33 }
    requires last { IsLastByte (is_byte 0) bytes.now last_zero }
    ensures { IsTrue result ↔ IsSome (file_name bytes.now number) }
{
    let word = places::units_start(bytes) + 4 * number;
    if word + 4 > bytes.len() as u64 {
        return false;
    }
    let name = places::files_start(bytes) + u64::from(u32_at(bytes, word as usize));
    ends_at(bytes, name as usize, last_zero)
}
