ghost use Rattle.std.specs.Prelude.{◌≡◌, ◌<◌, ℕ, List, All, [], length, true, false, None, Some, Err, IfOk};
ghost use Rattle.std.specs.List.{slice_get};
ghost use Rattle.asm_parse.specs.Valid.{IsValidUnit, IsValidData};
ghost use Rattle.link_names.specs.Definitions.{each};
ghost use Rattle.link_names.specs.Data as spec;
ghost use Rattle.link_names.specs.declared.data_no.DataNo.TheVariants.{N6};

use crate::data_no::DataNo;
use crate::definition::Meaning;
use crate::names::Names;
use asm_parse::{DataPart, Symbol, Unit};
use goasm_base::Name;
use std::alloc::Global;

/// Judges whether each `DATA` of a build with these names writes into data that a `GLOBL` declares, in its unit or another one, and
/// ends within its size. Of two `GLOBL`s with DUPOK the first counts, whatever the size of the other.
///
/// `N6` comes for the first `DATA` that does not, by units. `Memory` comes only for want of memory.
pub fn judge_data(alloc: Global, units: &[Unit], names: &Names<'_>) -> Result<(), DataNo>
    requires valid { All IsValidUnit units.now }
    ensures room { IfOk result (λ _. spec.misplaced units.now names.now ≡ []) }
    ensures first { (name : List ℕ) → result ≡ Err (N6 name) → slice_get (spec.misplaced units.now names.now) 0 ≡ Some name }
{
    for (number, unit) in units.iter().enumerate() {
        judge_unit(alloc, units, names, number, unit)?;
    }
    Ok(())
}

// Judges the data of a unit.
fn judge_unit(
    alloc: Global,
    units: &[Unit],
    names: &Names<'_>,
    number: usize,
    unit: &Unit,
) -> Result<(), DataNo>
    requires { IsValidUnit unit.now }
    ensures room { IfOk result (λ _. spec.unit_misplaced units.now names.now number unit.now ≡ []) }
    ensures first { (name : List ℕ) → result ≡ Err (N6 name) → slice_get (spec.unit_misplaced units.now names.now number unit.now) 0 ≡ Some name }
{
    judge_parts(
        alloc,
        units,
        names,
        number,
        unit.symbols.as_slice(),
        unit.values.as_slice(),
    )?;
    Ok(())
}

fn judge_parts(
    alloc: Global,
    units: &[Unit],
    names: &Names<'_>,
    unit: usize,
    symbols: &[Symbol],
    parts: &[DataPart],
) -> Result<(), DataNo>
    requires { All (IsValidData (length symbols.now)) parts.now }
    ensures room { IfOk result (λ _. each (spec.part_misplaced units.now names.now unit symbols.now) parts.now ≡ []) }
    ensures first { (name : List ℕ) → result ≡ Err (N6 name) → slice_get (each (spec.part_misplaced units.now names.now unit symbols.now) parts.now) 0 ≡ Some name }
{
    for part in parts {
        judge_part(alloc, units, names, unit, symbols, part)?;
    }
    Ok(())
}

// Judges a part of the data of a unit.
fn judge_part(
    alloc: Global,
    units: &[Unit],
    names: &Names<'_>,
    unit: usize,
    symbols: &[Symbol],
    part: &DataPart,
) -> Result<(), DataNo>
    requires { IsValidData (length symbols.now) part.now }
    ensures room { (number : ℕ) → IfOk result (λ _. spec.part_misplaced units.now names.now unit symbols.now number part.now ≡ []) }
    ensures first { (number : ℕ) (name : List ℕ) → result ≡ Err (N6 name) → slice_get (spec.part_misplaced units.now names.now unit symbols.now number part.now) 0 ≡ Some name }
{
    let symbol = &symbols[part.sym as usize];
    if has_room(size_of(units, names.symbol(unit, symbol)), part) {
        Ok(())
    } else {
        Err(DataNo::N6(Name::from_slice(alloc, symbol.name.as_slice())?))
    }
}

// The size that a `GLOBL` gives to what a symbol stands for.
fn size_of(units: &[Unit], meaning: Option<Meaning>) -> Option<u64>
    ensures { result ≡ spec.size_of units.now meaning }
{
    match meaning {
        Some(Meaning::Value { unit, number }) => {
            let unit = units.get(unit)?;
            let global = unit.globals.as_slice().get(number)?;
            Some(global.size)
        }
        _ => None,
    }
}

// Whether a part ends within so many bytes.
fn has_room(size: Option<u64>, part: &DataPart) -> bool
    ensures { result ≡ spec.is_within size (spec.part_end part.now) }
{
    match size {
        Some(size) => part_end(part) <= size,
        None => false,
    }
}

// Where a part ends in its symbol's data.
fn part_end(part: &DataPart) -> u64
    ensures { result ≡ spec.part_end part.now }
{
    let size = match part.address {
        Some(_) => 8,
        None => part.bytes.as_slice().len() as u64,
    };
    u64::from(part.off) + size
}
