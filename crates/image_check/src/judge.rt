ghost use Rattle.std.specs.Prelude.{◌≡◌, ◌≢◌, ◌<◌, ◌^◌, length, IfOk, IfErr};
ghost use Rattle.elf_image.specs.Contents.{table_in};
ghost use Rattle.image_check.specs.Readers.{listed_of};
ghost use Rattle.image_check.specs.Surrounding.{AreSurroundings, around_of};
ghost use Rattle.image_rules.specs.declared.check_no.CheckNo.TheVariants as numbers;
ghost use Rattle.image_rules.specs.Machine.{machine_of};
ghost use Rattle.image_rules.specs.Parts.{count_in};
ghost use Rattle.image_rules.specs.Refusals.{BreaksRule};
ghost use Rattle.image_rules.specs.Sound.{IsReadable, IsSoundFunction};

use crate::function::{Function, read_function};
use crate::goals::first_astray;
use crate::surroundings::Surroundings;
use asm_target::Target;
use elf_image::Image;
use flow_rules::flow_ok;
use image_rules::CheckNo;
use pclntab::Table;
use std::alloc::Global;

/// Reads a function of an image and judges it: its instructions (K2), its tables (K4), the flow rules (K3) and where it goes (K5).
pub fn judge<T: Target>(
    alloc: Global,
    image: &Image,
    table: &Table,
    all: &Surroundings,
    index: u32,
) -> Result<Function<T::Instr>, CheckNo>
    requires readable { let machine = machine_of T.instructions T.fits T.MACHINE T.QUANTUM T.SHAPE T.GROWTH T.begins in
        IsReadable machine image.now }
    requires short { length image.now < 2 ^ 32 }
    requires table { table.now ≡ table_in image.now }
    requires surroundings { AreSurroundings image.now all.now }
    requires inside { index < count_in image.now }
    ensures sound { let machine = machine_of T.instructions T.fits T.MACHINE T.QUANTUM T.SHAPE T.GROWTH T.begins in
        IfOk result (λ function. IsSoundFunction machine image.now (around_of all.now) index (listed_of function)) }
    ensures broken { let machine = machine_of T.instructions T.fits T.MACHINE T.QUANTUM T.SHAPE T.GROWTH T.begins in
        IfErr result (λ refusal. refusal ≢ numbers.Memory → BreaksRule machine image.now (around_of all.now) index refusal) }
{
    let function = read_function::<T>(alloc, image, table, index)?;
    let outside = all.outside();
    if let Err(breach) = flow_ok::<T>(&function.code, &function.depths, &outside) {
        return Err(CheckNo::K3(breach));
    }
    if let Some(place) = first_astray::<T>(&function.code, all.text, &all.symbols) {
        return Err(CheckNo::K5(place));
    }
    Ok(function)
}
