ghost use Rattle.std.specs.Prelude.{◌≡◌, ◌<◌, ◌^◌, ◌↔◌, length, All, false, IsTrue};
ghost use Rattle.asm_target.specs.FlowFunction as functions;
ghost use Rattle.elf_image.specs.Contents.{outside_in, table_in};
ghost use Rattle.elf_image.specs.Image.{IsImage};
ghost use Rattle.image_check.specs.Profile.{HasHeader, HasRange, HasRanges};
ghost use Rattle.image_rules.specs.Machine.{machine_of};
ghost use Rattle.image_rules.specs.Parts.{HasProfile, count_in, image_range};

use crate::range;
use asm_target::Target;
use elf_image::Image;
use pclntab::Table;

// Functions begin at multiples of this many bytes.
const ALIGNMENT: u64 = 16;

/// Whether an image and its function table agree with each other and with the target.
#[tactic(auto, using(crate::proofs::ProfileLemmas::profile_made, crate::proofs::ProfileLemmas::profile_told))]
pub fn has_profile<T: Target>(image: &Image, table: &Table) -> bool
    requires image { IsImage image.now }
    requires short { length image.now < 2 ^ 32 }
    requires table { table.now ≡ table_in image.now }
    ensures { let machine = machine_of T.instructions T.fits T.MACHINE T.QUANTUM T.SHAPE T.GROWTH T.begins in
        IsTrue result ↔ HasProfile image.now machine }
{
    if !has_header::<T>(image, table) {
        return false;
    }
    if !has_ranges(image, table) {
        return false;
    }
    is_apart(image)
}

// There is a function, and the table is one of the machine and of this text's address.
fn has_header<T: Target>(image: &Image, table: &Table) -> bool
    requires table { table.now ≡ table_in image.now }
    ensures { IsTrue result ↔ HasHeader image.now T.MACHINE T.QUANTUM }
{
    if table.count() == 0 {
        return false;
    }
    if image.machine() != T::MACHINE {
        return false;
    }
    if table.quantum() != T::QUANTUM {
        return false;
    }
    table.text_start() == image.text_at()
}

// The functions cover the text, and begin at multiples of 16.
fn has_ranges(image: &Image, table: &Table) -> bool
    requires table { table.now ≡ table_in image.now }
    requires some { 0 < count_in image.now }
    ensures { IsTrue result ↔ HasRanges image.now }
{
    let start = table.text_start();
    let size = image.text().len() as u64;
    if table.at(0).entry() != start {
        return false;
    }
    if table.at(table.count() - 1).end() - start != size {
        return false;
    }
    for index in 0..table.count() {
        if !has_range(image, table, index) {
            return false;
        }
    }
    true
}

// A function has bytes in the text, the first at a multiple of 16.
fn has_range(image: &Image, table: &Table, index: u32) -> bool
    requires table { table.now ≡ table_in image.now }
    requires inside { index < count_in image.now }
    ensures { IsTrue result ↔ HasRange image.now index }
{
    let func = table.at(index);
    let start = table.text_start();
    let offset = func.entry() - start;
    if offset % ALIGNMENT != 0 {
        return false;
    }
    if offset >= image.text().len() as u64 {
        return false;
    }
    offset < func.end() - start
}

// No symbol outside has an address of the image.
#[tactic(auto, using(crate::proofs::SizeLemmas::few_outside))]
fn is_apart(image: &Image) -> bool
    requires image { IsImage image.now }
    requires short { length image.now < 2 ^ 32 }
    ensures { IsTrue result ↔ All (λ symbol. functions.is_within (image_range image.now) symbol.1 ≡ false) (outside_in image.now) }
{
    let own = range::image_range(image);
    for index in 0..u32::MAX {
        match image.outside(index) {
            Some(symbol) => {
                if range::is_within(own, symbol.1) {
                    return false;
                }
            }
            None => return true,
        }
    }
    true
}
