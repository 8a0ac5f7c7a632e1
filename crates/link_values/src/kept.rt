ghost use Rattle.std.specs.Prelude.{◌≡◌, ◌<◌, All, length, map, ◌++◌, IfOk, OnOk};
ghost use Rattle.asm_parse.specs.Valid.{IsValidUnit, IsValidGlobal};
ghost use Rattle.link_names.specs.Definitions.{each};
ghost use Rattle.link_values.specs.Kept as spec;

use asm_parse::{GlobalPart, Symbol, Unit};
use goasm_base::Memory;
use link_names::{Meaning, Names};
use std::alloc::Global;

/// Data that a `GLOBL` declares and its symbol stands for.
#[derive(Clone, Copy, Debug, PartialEq, Eq)]
pub struct KeptValue {
    /// The number of its unit.
    pub unit: usize,
    /// The number of its `GLOBL` in the unit.
    pub number: usize,
    /// Its size in bytes.
    pub size: u64,
}

/// The data of a build, by units and by `GLOBL`: of two `GLOBL`s of one symbol the first alone.
///
/// `Memory` comes only for want of memory.
pub fn kept_values(
    alloc: Global,
    units: &[Unit],
    names: &Names<'_>,
) -> Result<Vec<KeptValue>, Memory>
    requires valid { All IsValidUnit units.now }
    ensures { IfOk result (λ kept. kept.items ≡ spec.kept_values names.now units.now) }
{
    let mut kept = Vec::new(alloc);
    for (number, unit) in units.iter().enumerate() {
        keep_unit(&mut kept, names, number, unit)?;
    }
    Ok(kept)
}

/// The sizes of data, in its order.
pub fn sizes_of(alloc: Global, kept: &[KeptValue]) -> Result<Vec<u64>, Memory>
    ensures { IfOk result (λ sizes. sizes.items ≡ spec.sizes_of kept.now) }
{
    Ok(kept.iter().map(|value| value.size).collect(alloc)?)
}

// Appends the data of a unit.
fn keep_unit(
    kept: &mut Vec<KeptValue>,
    names: &Names<'_>,
    number: usize,
    unit: &Unit,
) -> Result<(), Memory>
    requires { IsValidUnit unit.now }
    ensures { OnOk result (kept.new.items ≡ kept.old.items ++ spec.unit_kept names.now number unit.now) }
{
    keep_globals(
        kept,
        names,
        number,
        unit.symbols.as_slice(),
        unit.globals.as_slice(),
    )?;
    Ok(())
}

fn keep_globals(
    kept: &mut Vec<KeptValue>,
    names: &Names<'_>,
    unit: usize,
    symbols: &[Symbol],
    globals: &[GlobalPart],
) -> Result<(), Memory>
    requires { All (IsValidGlobal (length symbols.now)) globals.now }
    ensures { OnOk result (kept.new.items ≡ kept.old.items ++ each (spec.value_kept names.now unit symbols.now) globals.now) }
{
    for (number, global) in globals.iter().enumerate() {
        keep_global(kept, names, unit, symbols, number, global)?;
    }
    Ok(())
}

// Appends the data that a `GLOBL` declares, where its symbol stands for it.
fn keep_global(
    kept: &mut Vec<KeptValue>,
    names: &Names<'_>,
    unit: usize,
    symbols: &[Symbol],
    number: usize,
    global: &GlobalPart,
) -> Result<(), Memory>
    requires { IsValidGlobal (length symbols.now) global.now }
    ensures { OnOk result (kept.new.items ≡ kept.old.items ++ spec.value_kept names.now unit symbols.now number global.now) }
{
    if is_value(
        names.symbol(unit, &symbols[global.sym as usize]),
        unit,
        number,
    ) {
        kept.push(KeptValue {
            unit,
            number,
            size: global.size,
        })?;
    }
    Ok(())
}

// Whether a symbol stands for the data of this `GLOBL` of this unit.
fn is_value(meaning: Option<Meaning>, unit: usize, number: usize) -> bool
    ensures { result ≡ spec.is_value unit number meaning }
{
    match meaning {
        Some(
            Meaning::Value {
                unit: its,
                number: place,
            },
        ) => unit == its && number == place,
        _ => false,
    }
}
