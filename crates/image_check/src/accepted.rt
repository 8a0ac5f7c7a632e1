ghost use Rattle.std.specs.Prelude.{◌≡◌, ◌<◌, ◌+◌, ◌^◌, ℕ, length, IfOk, IfSome, IfNone};
ghost use Rattle.elf_image.specs.Contents.{table_in, text_address, text_in};
ghost use Rattle.flow_rules.specs.Placing.{Surroundings};
ghost use Rattle.image_check.specs.Kept.{AreEntries, HasTextLaws, IsMarked};
ghost use Rattle.image_check.specs.Readers.{instr_among};
ghost use Rattle.image_model.specs.Joined.{joined};
ghost use Rattle.image_model.specs.Listed.{Listed, text_of};
ghost use Rattle.image_rules.specs.Functions.{AreFunctionsOf};
ghost use Rattle.image_rules.specs.Machine.{machine_of};
ghost use Rattle.image_rules.specs.Parts.{Surrounds, count_in, offset_in};
ghost use Rattle.image_rules.specs.Sound.{IsSoundImage};
ghost use Rattle.pclntab.specs.Func.{func_at};
ghost use Rattle.pclntab.specs.Places.{text_start};

use crate::marks::Marks;
use asm_target::{Placed, Target};
use elf_image::Image;
use goasm_base::{Memory, behind_or_empty};
use image_marks::{Buckets, one_nearest};
use image_model::listed_is_text;
use image_rules::{one_function, sound_in_model};
use pclntab::{Func, Table};
use std::alloc::Global;
use std::marker::{Model, PhantomData};

/// An image that was accepted for a target. Contracts see its bytes.
#[derive(Drop)]
pub struct Accepted<'a, T: Target> {
    image: Image<'a>,
    table: Table<'a>,
    // Where each function begins, in bytes from the text's first one.
    entries: Vec<u32>,
    buckets: Buckets,
    marks: Marks,
    target: PhantomData<T>,
}

impl<'a, T: Target> Model for Accepted<'a, T> {
    ghost use Rattle.std.specs.Prelude.{ℕ, List};
    ghost use Rattle.image_check.specs.Kept.{IsKept};
    ghost use Rattle.image_rules.specs.Machine.{machine_of};

    ghost Value = { List ℕ };

    ghost view = { λ accepted. accepted.image };

    ghost invariant = { λ accepted.
        IsKept (machine_of T.instructions T.fits T.MACHINE T.QUANTUM T.SHAPE T.GROWTH T.begins) accepted.image accepted.table
        accepted.entries.items accepted.marks.starts accepted.marks.ends accepted.buckets };
}

// Where each function begins, in bytes from the text's first one.
fn entries_of(alloc: Global, image: &Image, table: &Table) -> Result<Vec<u32>, Memory>
    requires table { table.now ≡ table_in image.now }
    requires inside { (index : ℕ) → index < count_in image.now → offset_in image.now index < 2 ^ 32 }
    requires start { text_start (table_in image.now) ≡ text_address }
    ensures { IfOk result (λ entries. AreEntries image.now entries.items) }
{
    let first = image.text_at();
    let mut entries = Vec::new(alloc);
    for index in 0..table.count() {
        entries.push((table.at(index).entry() - first) as u32)?;
    }
    Ok(entries)
}

fn text_laws<T: Target>()
    ensures { let machine = machine_of T.instructions T.fits T.MACHINE T.QUANTUM T.SHAPE T.GROWTH T.begins in HasTextLaws machine }
{
    one_function::<T>();
    sound_in_model::<T>();
    listed_is_text::<T>();
    one_nearest();
}

// How far an address lies behind another one. `None` exactly where it lies before it.
fn distance(first: u64, address: u64) -> Option<usize>
    ensures behind { IfSome result (λ offset. address ≡ first + offset) }
    ensures before { IfNone result (address < first) }
{
    if address < first {
        return None;
    }
    Some((address - first) as usize)
}

impl<'a, T: Target> Accepted<'a, T> {
    /// A sound image, with its function table and the marks of its functions.
    pub(crate) fn new(
        alloc: Global,
        image: Image<'a>,
        table: Table<'a>,
        marks: Marks,
    ) -> Result<Self, Memory>
        requires table { table ≡ table_in image }
        requires marked { let machine = machine_of T.instructions T.fits T.MACHINE T.QUANTUM T.SHAPE T.GROWTH T.begins in
            IsMarked machine image marks.starts marks.ends }
        ensures { IfOk result (λ accepted. accepted ≡ image.entry) }
    {
        let entries = entries_of(alloc, &image, &table)?;
        let buckets = Buckets::new(alloc, &entries, image.text().len() as u32)?;
        Ok(Accepted {
            image,
            table,
            entries,
            buckets,
            marks,
            target: PhantomData,
        })
    }

    /// The image is sound.
    pub fn sound(&self)
        ensures { let machine = machine_of T.instructions T.fits T.MACHINE T.QUANTUM T.SHAPE T.GROWTH T.begins in
            IsSoundImage machine self.now }
    {
        let _ = &self.image;
    }

    /// Its header and parts.
    pub fn image(&self) -> &Image<'a>
        ensures { result.now ≡ self.now }
    {
        &self.image
    }

    /// Its function table.
    pub fn table(&self) -> &Table<'a>
        ensures { result.now ≡ table_in self.now }
    {
        &self.table
    }

    /// The text's first address and the one behind it.
    pub fn text(&self) -> (u64, u64)
        ensures { result ≡ (text_address, text_address + length (text_in self.now)) }
    {
        let first = self.image.text_at();
        (first, first + self.image.text().len() as u64)
    }

    /// How many functions it has.
    pub fn count(&self) -> u32
        ensures { result ≡ count_in self.now }
    {
        self.table.count()
    }

    /// The function with this number, from 0 in the order of addresses.
    pub fn function(&self, index: u32) -> Func<'a>
        requires { index < count_in self.now }
        ensures { result ≡ record { bytes = table_in self.now; index = index } }
    {
        self.table.at(index)
    }

    /// The number of the function whose range has the address, its padding included. `None` exactly where none has.
    pub fn find(&self, pc: u64) -> Option<u32>
        ensures { result ≡ func_at (table_in self.now) pc }
    {
        let offset = distance(self.image.text_at(), pc)?;
        if offset >= self.image.text().len() {
            return None;
        }
        Some(self.buckets.find(&self.entries, offset as u32))
    }

    /// The instruction that begins at the address. `None` exactly where none does.
    pub fn instr_at(&self, pc: u64) -> Option<Placed<T::Instr>>
        ensures { let machine = machine_of T.instructions T.fits T.MACHINE T.QUANTUM T.SHAPE T.GROWTH T.begins in
            (functions : ℕ → Listed T.Instr) → AreFunctionsOf machine self.now functions (count_in self.now)
            → result ≡ instr_among functions (count_in self.now) pc }
    {
        let offset = distance(self.image.text_at(), pc)?;
        if !self.marks.starts.has(offset) {
            return None;
        }
        let found = T::read(behind_or_empty(self.image.text(), offset))?;
        Some(Placed {
            at: pc,
            len: found.1 as u8,
            instr: found.0,
        })
    }

    /// The place of the call that ends at the address and is no call of a routine that grows the stack. `None` exactly where
    /// there is none.
    pub fn after_call(&self, pc: u64) -> Option<u64>
        ensures { let machine = machine_of T.instructions T.fits T.MACHINE T.QUANTUM T.SHAPE T.GROWTH T.begins in
            (around : Surroundings) (functions : ℕ → Listed T.Instr)
            → Surrounds self.now around → AreFunctionsOf machine self.now functions (count_in self.now)
            → result ≡ (joined (text_of T.instructions T.SHAPE T.GROWTH T.begins around (count_in self.now) functions)).after_call pc }
    {
        text_laws::<T>();
        let offset = distance(self.image.text_at(), pc)?;
        if !self.marks.ends.has(offset) {
            return None;
        }
        let start = self.marks.starts.nearest_before(offset)?;
        Some(self.image.text_at() + start as u64)
    }
}
