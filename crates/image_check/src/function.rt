ghost use Rattle.std.specs.Prelude.{◌≡◌, ◌≢◌, ◌<◌, IfOk, IfErr};
ghost use Rattle.elf_image.specs.Contents.{table_in};
ghost use Rattle.flow_rules.specs.Placing.{Surroundings};
ghost use Rattle.image_check.specs.Readers.{listed_of};
ghost use Rattle.image_rules.specs.declared.check_no.CheckNo.TheVariants as numbers;
ghost use Rattle.image_rules.specs.Functions.{IsFunction};
ghost use Rattle.image_rules.specs.Machine.{machine_of};
ghost use Rattle.image_rules.specs.Parts.{count_in};
ghost use Rattle.image_rules.specs.Refusals.{BreaksRule};
ghost use Rattle.image_rules.specs.Sound.{IsReadable};

use crate::padding::{is_whole, padding_byte};
use crate::reading::{own_bytes, read_code};
use crate::tables::told_depths;
use asm_target::{Placed, Target};
use elf_image::Image;
use goasm_base::Memory;
use image_rules::CheckNo;
use pclntab::Table;
use std::alloc::Global;

/// A function of an image as it was read.
#[derive(Drop)]
pub struct Function<I> {
    /// Its instructions, at their addresses.
    pub code: Vec<Placed<I>>,
    /// Their depths by the function's table, in bytes.
    pub depths: Vec<u32>,
}

/// Reads a function: its instructions up to its padding (K2), and what its tables tell of them (K4).
pub fn read_function<T: Target>(
    alloc: Global,
    image: &Image,
    table: &Table,
    index: u32,
) -> Result<Function<T::Instr>, CheckNo>
    requires readable { let machine = machine_of T.instructions T.fits T.MACHINE T.QUANTUM T.SHAPE T.GROWTH T.begins in
        IsReadable machine image.now }
    requires table { table.now ≡ table_in image.now }
    requires inside { index < count_in image.now }
    ensures function { let machine = machine_of T.instructions T.fits T.MACHINE T.QUANTUM T.SHAPE T.GROWTH T.begins in
        IfOk result (λ function. IsFunction machine image.now index (listed_of function)) }
    ensures broken { let machine = machine_of T.instructions T.fits T.MACHINE T.QUANTUM T.SHAPE T.GROWTH T.begins in
        IfErr result (λ refusal. refusal ≢ numbers.Memory → (around : Surroundings) → BreaksRule machine image.now around index refusal) }
{
    let entry = table.at(index).entry();
    let own = own_bytes(image, table, index);
    let Ok(reading) = read_code::<T>(alloc, own, entry) else {
        return Err(CheckNo::Memory);
    };
    if !is_whole(&reading, own, padding_byte::<T>()) {
        return Err(CheckNo::K2(entry + reading.size as u64));
    }
    match told_depths(alloc, table, index, &reading.ends) {
        Ok(Some(depths)) => Ok(Function {
            code: reading.code,
            depths,
        }),
        Ok(None) => Err(CheckNo::K4(entry)),
        Err(Memory) => Err(CheckNo::Memory),
    }
}
