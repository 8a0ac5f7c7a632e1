ghost use Rattle.std.specs.Prelude.{◌≡◌, ◌≤◌, ◌<◌, ◌^◌, All, length, IfOk, IfNone, IfSome};
ghost use Rattle.asm_parse.specs.Valid.{IsValidUnit};
ghost use Rattle.link_places.specs.Places.{end_from};
ghost use Rattle.link_values.specs.Kept as kept_spec;
ghost use Rattle.link_plan.specs.Sizes.{code_sizes as sizes_of_code};
ghost use Rattle.link_plan.specs.Plan as spec;

use crate::sizes::code_sizes;
use asm_parse::Unit;
use goasm_base::Memory;
use link_functions::UnitCode;
use link_names::Names;
use link_places::{Places, places_of};
use link_values::{KeptValue, kept_values, sizes_of};
use std::alloc::Global;

/// How many functions a build may have.
const MOST_FUNCTIONS: usize = 65_536;

/// How many bytes the functions of a build may have with what lies between them, and how many its data.
const MOST_BYTES: u64 = 0x0100_0000;

/// Where the functions and the data of a build stand.
#[derive(Debug, Drop)]
pub struct Plan {
    /// Where its functions stand, by units, from the first byte of the text on.
    pub functions: Places,
    /// Its data.
    pub kept: Vec<KeptValue>,
    /// Where that stands, from the first byte of all data on.
    pub values: Places,
}

/// Where the functions of a build stand, one behind the other, and where its data does, each at the next multiple of 16.
///
/// `None` comes exactly where there are more than 65,536 functions, or the text or the data has more than 2^24 bytes, with what lies
/// between and behind them. `Memory` comes only for want of memory.
pub fn plan_build<I>(
    alloc: Global,
    units: &[Unit],
    names: &Names<'_>,
    code: &[UnitCode<'_, I>],
) -> Result<Option<Plan>, Memory>
    requires valid { All IsValidUnit units.now }
    ensures functions { IfOk result (λ found. IfSome found (λ plan. spec.IsPlaced (sizes_of_code code.now) plan.functions)) }
    ensures count { IfOk result (λ found. IfSome found (λ plan. length plan.functions.at ≤ 65536)) }
    ensures kept { IfOk result (λ found. IfSome found (λ plan. plan.kept.items ≡ kept_spec.kept_values names.now units.now)) }
    ensures values { IfOk result (λ found. IfSome found (λ plan. spec.IsPlaced (kept_spec.sizes_of plan.kept.items) plan.values)) }
    ensures none { IfOk result (λ found. IfNone found (spec.PassesLimit names.now units.now code.now)) }
{
    let Some(functions) = place_functions(alloc, code)? else {
        return Ok(None);
    };
    let kept = kept_values(alloc, units, names)?;
    let Some(values) = place_values(alloc, kept.as_slice())? else {
        return Ok(None);
    };
    Ok(Some(Plan {
        functions,
        kept,
        values,
    }))
}

// Where the functions of a build stand.
fn place_functions<I>(alloc: Global, code: &[UnitCode<'_, I>]) -> Result<Option<Places>, Memory>
    ensures placed { IfOk result (λ found. IfSome found (spec.IsPlaced (sizes_of_code code.now))) }
    ensures count { IfOk result (λ found. IfSome found (λ places. length places.at ≤ 65536)) }
    ensures none { IfOk result (λ found. IfNone found (spec.HasTooMuchCode code.now)) }
{
    let sizes = code_sizes(alloc, code)?;
    if sizes.len() > MOST_FUNCTIONS {
        return Ok(None);
    }
    places_of(alloc, sizes.as_slice(), MOST_BYTES)
}

// Where data stands.
fn place_values(alloc: Global, kept: &[KeptValue]) -> Result<Option<Places>, Memory>
    ensures placed { IfOk result (λ found. IfSome found (spec.IsPlaced (kept_spec.sizes_of kept.now))) }
    ensures none { IfOk result (λ found. IfNone found (2 ^ 24 < end_from 0 (kept_spec.sizes_of kept.now))) }
{
    let sizes = sizes_of(alloc, kept)?;
    places_of(alloc, sizes.as_slice(), MOST_BYTES)
}
