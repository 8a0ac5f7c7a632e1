ghost use Rattle.std.specs.Prelude.{◌≡◌, ◌≢◌, ◌<◌, ◌^◌, length, IfOk, OnOk, IfErr};
ghost use Rattle.elf_image.specs.Contents.{table_in};
ghost use Rattle.image_check.specs.Kept.{IsMarked};
ghost use Rattle.image_check.specs.Surrounding.{AreSurroundings};
ghost use Rattle.image_rules.specs.declared.check_no.CheckNo.TheVariants as numbers;
ghost use Rattle.image_rules.specs.Machine.{machine_of};
ghost use Rattle.image_rules.specs.Refusals.{IsRefused, IsUnreadable};
ghost use Rattle.image_rules.specs.Sound.{IsReadable, IsSoundImage};

use crate::accepted::Accepted;
use crate::judge::judge;
use crate::marks::Marks;
use crate::profile::has_profile;
use crate::surroundings::Surroundings;
use asm_target::Target;
use elf_image::{Image, view};
use image_rules::{CheckNo, ProfileNo, refused_is_unsound};
use pclntab::Table;
use std::alloc::Global;

/// Checks an image for a target, and keeps the slice.
///
/// It is accepted exactly where it is sound: its bytes are an image with a function table that agree (K1); each function is
/// instructions of the machine up to its padding (K2), has tables that tell of exactly these (K4), keeps the flow rules F1 to F9 with
/// the depths of its table (K3), and goes directly to no address outside but those of outside symbols (K5). Otherwise the first breach
/// is told, by function and in a function in this order. `Memory` comes only for want of memory.
pub fn accept<'a, T: Target>(alloc: Global, bytes: &'a [u8]) -> Result<Accepted<'a, T>, CheckNo>
    requires { length bytes.now < 2 ^ 32 }
    ensures image { IfOk result (λ accepted. accepted ≡ bytes.now) }
    ensures sound { let machine = machine_of T.instructions T.fits T.MACHINE T.QUANTUM T.SHAPE T.GROWTH T.begins in
        OnOk result (IsSoundImage machine bytes.now) }
    ensures refused { let machine = machine_of T.instructions T.fits T.MACHINE T.QUANTUM T.SHAPE T.GROWTH T.begins in
        IfErr result (λ refusal. refusal ≢ numbers.Memory → IsRefused machine bytes.now refusal) }
    ensures unsound { let machine = machine_of T.instructions T.fits T.MACHINE T.QUANTUM T.SHAPE T.GROWTH T.begins in
        IfErr result (λ refusal. refusal ≢ numbers.Memory → ¬ IsSoundImage machine bytes.now) }
{
    refused_is_unsound::<T>();
    judge_image::<T>(alloc, bytes)
}

// The same, without the law that an image that is refused isn't sound.
fn judge_image<'a, T: Target>(alloc: Global, bytes: &'a [u8]) -> Result<Accepted<'a, T>, CheckNo>
    requires { length bytes.now < 2 ^ 32 }
    ensures image { IfOk result (λ accepted. accepted ≡ bytes.now) }
    ensures sound { let machine = machine_of T.instructions T.fits T.MACHINE T.QUANTUM T.SHAPE T.GROWTH T.begins in
        OnOk result (IsSoundImage machine bytes.now) }
    ensures refused { let machine = machine_of T.instructions T.fits T.MACHINE T.QUANTUM T.SHAPE T.GROWTH T.begins in
        IfErr result (λ refusal. refusal ≢ numbers.Memory → IsRefused machine bytes.now refusal) }
{
    let (image, table) = match read::<T>(bytes) {
        Ok(parts) => parts,
        Err(refusal) => return Err(CheckNo::K1(refusal)),
    };
    let Ok(all) = Surroundings::new(alloc, &image, &table) else {
        return Err(CheckNo::Memory);
    };
    let marks = judge_all::<T>(alloc, &image, &table, &all)?;
    let Ok(accepted) = Accepted::new(alloc, image, table, marks) else {
        return Err(CheckNo::Memory);
    };
    Ok(accepted)
}

// An image and its function table, where they are one and agree (K1).
fn read<'a, T: Target>(bytes: &'a [u8]) -> Result<(Image<'a>, Table<'a>), ProfileNo>
    requires { length bytes.now < 2 ^ 32 }
    ensures image { IfOk result (λ parts. parts.0 ≡ bytes.now) }
    ensures table { IfOk result (λ parts. parts.1 ≡ table_in bytes.now) }
    ensures readable { let machine = machine_of T.instructions T.fits T.MACHINE T.QUANTUM T.SHAPE T.GROWTH T.begins in
        OnOk result (IsReadable machine bytes.now) }
    ensures unreadable { let machine = machine_of T.instructions T.fits T.MACHINE T.QUANTUM T.SHAPE T.GROWTH T.begins in
        IfErr result (λ refusal. IsUnreadable machine bytes.now refusal) }
{
    let image = match view(bytes) {
        Ok(image) => image,
        Err(refusal) => return Err(ProfileNo::Image(refusal)),
    };
    let table = match Table::read(image.table()) {
        Ok(table) => table,
        Err(refusal) => return Err(ProfileNo::Table(refusal)),
    };
    if !has_profile::<T>(&image, &table) {
        return Err(ProfileNo::Profile);
    }
    Ok((image, table))
}

// Judges one function after the other, and marks its instructions.
fn judge_all<T: Target>(
    alloc: Global,
    image: &Image,
    table: &Table,
    all: &Surroundings,
) -> Result<Marks, CheckNo>
    requires readable { let machine = machine_of T.instructions T.fits T.MACHINE T.QUANTUM T.SHAPE T.GROWTH T.begins in
        IsReadable machine image.now }
    requires short { length image.now < 2 ^ 32 }
    requires table { table.now ≡ table_in image.now }
    requires surroundings { AreSurroundings image.now all.now }
    ensures marked { let machine = machine_of T.instructions T.fits T.MACHINE T.QUANTUM T.SHAPE T.GROWTH T.begins in
        IfOk result (λ marks. IsMarked machine image.now marks.starts marks.ends) }
    ensures refused { let machine = machine_of T.instructions T.fits T.MACHINE T.QUANTUM T.SHAPE T.GROWTH T.begins in
        IfErr result (λ refusal. refusal ≢ numbers.Memory → IsRefused machine image.now refusal) }
{
    let Ok(mut marks) = Marks::new::<T>(alloc, image.text().len()) else {
        return Err(CheckNo::Memory);
    };
    for index in 0..table.count() {
        let function = judge::<T>(alloc, image, table, all, index)?;
        marks.mark::<T>(image, &function, &all.growth);
    }
    Ok(marks)
}
