ghost use Rattle.std.specs.Prelude.{◌≡◌, ◌≤◌, ◌<◌, ◌^◌, map, IfOk, IfNone, IfSome};
ghost use Rattle.elf_image.specs.Layout.{image_length};
ghost use Rattle.link_build.specs.Functions.{seen};
ghost use Rattle.link_parts.specs.Image.{planned_symbols, sizes_with};
ghost use Rattle.link_parts.specs.Planned.{AreListable};
ghost use Rattle.link_parts.specs.Symbols as spec;

use crate::defined::{defined_functions, defined_values};
use crate::length::is_short;
use elf_image::SymbolPart;
use goasm_base::{List, Memory};
use link_build::{Build, Func};
use link_plan::Plan;
use link_symbols::symbols_of;
use std::alloc::Global;

/// The symbols of an image whose text and table have so many bytes and whose data stands at this address, by the plan of its build.
///
/// `None` comes exactly where the image would have more than 2^26 bytes, and `Memory` only for want of memory.
pub fn image_symbols<I>(
    alloc: Global,
    build: &Build,
    funcs: &[Func<'_, '_, I>],
    plan: &Plan,
    text: u64,
    table: u64,
    values_at: u64,
) -> Result<Option<List<SymbolPart>>, Memory>
    requires listable { AreListable build.now (map seen funcs.now) plan.now }
    requires text { text ≤ 2 ^ 24 }
    requires table { table ≤ 2 ^ 26 }
    requires small { values_at < 2 ^ 31 }
    ensures listed { IfOk result (λ found. IfSome found (λ symbols. symbols ≡ planned_symbols build.now (map seen funcs.now) plan.now values_at)) }
    ensures symbols { let functions = spec.function_symbols (map seen funcs.now) plan.now.functions.at in
        IfOk result (λ found. IfSome found (spec.AreSymbols functions build.now.outside)) }
    ensures short { let sizes = sizes_with text table plan.now.values.end (planned_symbols build.now (map seen funcs.now) plan.now values_at) in
        IfOk result (λ found. IfSome found (λ _. image_length sizes ≤ 2 ^ 26)) }
    ensures none { let sizes = sizes_with text table plan.now.values.end (planned_symbols build.now (map seen funcs.now) plan.now values_at) in
        IfOk result (λ found. IfNone found (2 ^ 26 < image_length sizes)) }
{
    let functions = defined_functions(alloc, funcs, plan.functions.at.as_slice())?;
    let units = build.units.as_slice();
    let kept = plan.kept.as_slice();
    let values = defined_values(alloc, units, kept, values_at, plan.values.at.as_slice())?;
    let outside = build.outside.as_slice();
    if !is_short(text, table, plan.values.end, &functions, &values, outside) {
        return Ok(None);
    }
    let symbols = symbols_of(alloc, &functions, &values, outside)?;
    Ok(Some(List::new(symbols)))
}
