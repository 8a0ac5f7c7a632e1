ghost use Rattle.std.specs.Prelude.{◌≡◌, map, length, IfOk};
ghost use Rattle.link_build.specs.Functions.{functions_in, seen};
ghost use Rattle.link_build.specs.Resolved.{IsValidBuild};
ghost use Rattle.link_plan.specs.Plan.{text_size};
ghost use Rattle.link_text.specs.Text.{image_text};
ghost use Rattle.unit_listing.specs.Kit.{kit_of};
ghost use Rattle.image_link.specs.Linked as spec;

use crate::standing::Standing;
use asm_target::Target;
use elf_image::{ImageParts, image_lengths, write};
use goasm_base::{Bytes, Memory};
use link_build::{Build, Func, find_entry};
use link_functions::UnitCode;
use link_names::Names;
use link_parts::Fitted;
use link_plan::TEXT_ADDRESS;
use link_values::value_bytes;
use std::alloc::Global;

/// Writes the image of a build: of its functions in their order, which stand at their addresses, and of its other parts.
///
/// `Memory` comes only for want of memory.
pub fn write_image<T: Target>(
    alloc: Global,
    build: &Build,
    names: &Names<'_>,
    code: &[UnitCode<'_, T::Instr>],
    funcs: &[Func<'_, '_, T::Instr>],
    standing: Standing<T::Instr>,
    fitted: Fitted,
) -> Result<Bytes, Memory>
    requires valid { IsValidBuild build.now }
    requires fit { let kit = kit_of T.instructions T.fits T.MACHINE T.QUANTUM T.SHAPE T.selection T.aiming T.entry T.check T.begins in
        spec.IsFit kit build.now names.now code.now fitted }
    requires functions { map seen funcs.now ≡ functions_in code.now }
    requires text { let kit = kit_of T.instructions T.fits T.MACHINE T.QUANTUM T.SHAPE T.selection T.aiming T.entry T.check T.begins in
        standing.text ≡ image_text kit T.GROWTH standing.codes.items }
    requires long { length standing.text ≡ text_size code.now }
    ensures { let kit = kit_of T.instructions T.fits T.MACHINE T.QUANTUM T.SHAPE T.selection T.aiming T.entry T.check T.begins in
        IfOk result (spec.IsWritten kit build.now T.GROWTH names.now code.now fitted standing.codes.items) }
{
    let number = find_entry::<T>(names, &build.entry, funcs);
    let entry = TEXT_ADDRESS + fitted.plan.functions.at.as_slice()[number];
    let units = build.units.as_slice();
    let kept = fitted.plan.kept.as_slice();
    let places = &fitted.plan.values;
    let values = value_bytes(alloc, units, names, kept, places, &fitted.addresses)?;
    image_lengths();
    let parts = ImageParts {
        machine: T::MACHINE,
        entry,
        text: standing.text,
        table: fitted.table,
        values: Bytes::new(values),
        symbols: fitted.symbols,
    };
    let image = write(alloc, &parts)?;
    Ok(image)
}
