ghost use Rattle.std.specs.Prelude.{◌≡◌, ◌⊎◌, map, IfOk, IfNone, IfSome};
ghost use Rattle.unit_listing.specs.Kit.{kit_of};
ghost use Rattle.link_build.specs.Functions.{functions_in, seen};
ghost use Rattle.link_build.specs.Resolved.{IsResolved, IsValidBuild};
ghost use Rattle.link_plan.specs.Plan.{PassesLimit};
ghost use Rattle.link_parts.specs.Fitted.{AreLines, IsFitted, IsPlanned, IsTooLong};

use crate::length::{address_behind, text_size};
use crate::symbols::image_symbols;
use crate::table::table_of;
use asm_target::Target;
use elf_image::SymbolPart;
use goasm_base::{Bytes, List, Memory};
use link_build::{Build, Func, functions_are_sound};
use link_functions::UnitCode;
use link_lines::{all_lines, laid_lines};
use link_names::Names;
use link_places::Addresses;
use link_plan::{Plan, addresses_of, plan_build};
use link_tables::FuncLines;
use std::alloc::Global;

/// What the image of a build has beside its code and the bytes of its data.
#[derive(Drop)]
pub struct Fitted {
    /// Where its functions and its data stand.
    pub plan: Plan,
    /// Its function table.
    pub table: Bytes,
    /// The address of the first byte of its data.
    pub values_at: u64,
    /// Its symbols, as `elf_image::write` wants them.
    pub symbols: List<SymbolPart>,
    /// The addresses of what the symbols of its build stand for.
    pub addresses: Addresses,
}

/// What the image of a build has beside its code and the bytes of its data, of which these are all functions, in their order.
///
/// `None` comes exactly where there are more than 65,536 functions, the text or the data would have more than 2^24 bytes, or the image
/// more than 2^26. `Memory` comes only for want of memory.
pub fn fit<T: Target>(
    alloc: Global,
    build: &Build,
    names: &Names<'_>,
    code: &[UnitCode<'_, T::Instr>],
    funcs: &[Func<'_, '_, T::Instr>],
) -> Result<Option<Fitted>, Memory>
    requires valid { IsValidBuild build.now }
    requires resolved { let kit = kit_of T.instructions T.fits T.MACHINE T.QUANTUM T.SHAPE T.selection T.aiming T.entry T.check T.begins in
        IsResolved kit build.now names.now code.now }
    requires functions { map seen funcs.now ≡ functions_in code.now }
    ensures fitted { IfOk result (λ found. IfSome found (IsFitted T.QUANTUM build.now names.now code.now)) }
    ensures none { IfOk result (λ found. IfNone found (PassesLimit names.now build.now.units code.now ⊎ IsTooLong T.QUANTUM build.now names.now code.now)) }
{
    let units = build.units.as_slice();
    let Some(plan) = plan_build(alloc, units, names, code)? else {
        return Ok(None);
    };
    functions_are_sound::<T>();
    laid_lines::<T>();
    let lines = all_lines::<T>(alloc, funcs, plan.functions.at.as_slice())?;
    fit_lines::<T>(alloc, build, names, code, funcs, plan, lines.as_slice())
}

// The same, where it's known where the functions and the data stand, and what the function table is told.
fn fit_lines<T: Target>(
    alloc: Global,
    build: &Build,
    names: &Names<'_>,
    code: &[UnitCode<'_, T::Instr>],
    funcs: &[Func<'_, '_, T::Instr>],
    plan: Plan,
    lines: &[FuncLines<'_, T::Instr>],
) -> Result<Option<Fitted>, Memory>
    requires valid { IsValidBuild build.now }
    requires resolved { let kit = kit_of T.instructions T.fits T.MACHINE T.QUANTUM T.SHAPE T.selection T.aiming T.entry T.check T.begins in
        IsResolved kit build.now names.now code.now }
    requires functions { map seen funcs.now ≡ functions_in code.now }
    requires planned { IsPlanned build.now names.now code.now plan }
    requires lines { AreLines T.QUANTUM build.now code.now lines.now }
    ensures fitted { IfOk result (λ found. IfSome found (IsFitted T.QUANTUM build.now names.now code.now)) }
    ensures none { IfOk result (λ found. IfNone found (IsTooLong T.QUANTUM build.now names.now code.now)) }
{
    functions_are_sound::<T>();
    let text_len = text_size(plan.functions.end);
    let files = build.files.as_slice();
    let Some(table) = table_of(alloc, files, lines, T::QUANTUM, text_len)? else {
        return Ok(None);
    };
    let text = u64::from(text_len);
    let table_len = table.as_slice().len() as u64;
    let values_at = address_behind(text, table_len);
    let Some(symbols) = image_symbols(alloc, build, funcs, &plan, text, table_len, values_at)?
    else {
        return Ok(None);
    };
    let addresses = addresses_of(alloc, code, &plan, build.outside.as_slice(), values_at)?;
    Ok(Some(Fitted {
        plan,
        table,
        values_at,
        symbols,
        addresses,
    }))
}
