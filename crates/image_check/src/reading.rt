// The instructions of a function's bytes.
ghost use Rattle.std.specs.Prelude.{◌≡◌, ◌<◌, ◌≤◌, ◌+◌, ◌^◌, length, drop, IfOk};
ghost use Rattle.asm_target.specs.InstructionSet.{Begins};
ghost use Rattle.elf_image.specs.Contents.{table_in};
ghost use Rattle.pcvalue.specs.Cover.{Ascends};
ghost use Rattle.image_rules.specs.Parts as spec;
ghost use Rattle.image_rules.specs.Parts.{count_in};
ghost use Rattle.image_check.specs.Code.{IsCodeTo, IsInText};

use asm_target::{Placed, Processor, first_instr};
use elf_image::Image;
use goasm_base::{Memory, behind};
use pclntab::Table;
use std::alloc::Global;

/// What was read of a function's bytes.
#[derive(Drop)]
pub(crate) struct Reading<I> {
    /// The instructions, at their addresses.
    pub code: Vec<Placed<I>>,
    /// Where each of them ends, in bytes from the function's entry.
    pub ends: Vec<u32>,
    /// How many bytes they have together.
    pub size: usize,
}

/// The bytes of a function, up to where the next one begins.
pub(crate) fn own_bytes<'a>(image: &Image<'a>, table: &Table, index: u32) -> &'a [u8]
    requires table { table.now ≡ table_in image.now }
    requires count { index < count_in image.now }
    requires inside { IsInText image.now index }
    ensures own { result.now ≡ spec.own_bytes image.now index }
    ensures short { length result.now < 2 ^ 32 }
    ensures low { spec.entry_in image.now index + length result.now < 2 ^ 64 }
{
    let func = table.at(index);
    let from = func.entry() - image.text_at();
    let past = func.end() - image.text_at();
    &image.text()[from as usize..past as usize]
}

/// The instructions with which a function's bytes begin, up to the first place where none does. `Memory` comes only for want of
/// memory.
pub(crate) fn read_code<T: Processor>(
    alloc: Global,
    own: &[u8],
    entry: u64,
) -> Result<Reading<T::Instr>, Memory>
    requires short { length own.now < 2 ^ 32 }
    requires low { entry + length own.now < 2 ^ 64 }
    ensures code { IfOk result (λ reading. IsCodeTo T.instructions T.fits own.now entry reading.code.items reading.ends.items reading.size) }
    ensures rising { IfOk result (λ reading. Ascends 0 reading.ends.items) }
    ensures within { IfOk result (λ reading. reading.size ≤ length own.now) }
    ensures ends { IfOk result (λ reading. (i : T.Instr) → T.fits i → ¬ Begins T.instructions (drop reading.size own.now) i) }
{
    let mut code = Vec::new(alloc);
    let mut ends = Vec::new(alloc);
    let mut size = 0;
    while let Some(found) = first_instr::<T>(behind(own, size)) {
        code.push(Placed {
            at: entry + size as u64,
            len: found.1 as u8,
            instr: found.0,
        })?;
        size += found.1;
        ends.push(size as u32)?;
    }
    Ok(Reading { code, ends, size })
}
