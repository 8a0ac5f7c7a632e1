ghost use Rattle.std.specs.Prelude.{◌≡◌, ◌<◌, ℕ, List, All, [], length, true, false, None, Some, Err, IfOk};
ghost use Rattle.std.specs.List.{slice_get};
ghost use Rattle.asm_parse.specs.Valid.{IsValidUnit, IsValidData};
ghost use Rattle.link_names.specs.Definitions.{each, key_at, meaning_in};
ghost use Rattle.link_names.specs.Data as spec;
ghost use Rattle.link_names.specs.declared.symbol_no.SymbolNo.TheVariants.{N2};

use crate::definition::Meaning;
use crate::names::Names;
use crate::symbol_no::SymbolNo;
use asm_parse::{DataPart, Symbol, Unit};
use goasm_base::Name;
use std::alloc::Global;

/// Judges whether each symbol stands for something whose address the data of a unit has, by the names of its build; the unit has
/// this number.
///
/// `N2` comes for the first `DATA` with another symbol. `Memory` comes only for want of memory.
pub fn judge_addresses(
    alloc: Global,
    names: &Names<'_>,
    number: usize,
    unit: &Unit,
) -> Result<(), SymbolNo>
    requires valid { IsValidUnit unit.now }
    ensures defined { IfOk result (λ _. spec.unit_undefined names.now number unit.now ≡ []) }
    ensures first { (name : List ℕ) → result ≡ Err (N2 name) → slice_get (spec.unit_undefined names.now number unit.now) 0 ≡ Some name }
{
    judge_addresses_in(
        alloc,
        names,
        number,
        unit.symbols.as_slice(),
        unit.values.as_slice(),
    )?;
    Ok(())
}

fn judge_addresses_in(
    alloc: Global,
    names: &Names<'_>,
    unit: usize,
    symbols: &[Symbol],
    parts: &[DataPart],
) -> Result<(), SymbolNo>
    requires { All (IsValidData (length symbols.now)) parts.now }
    ensures defined { IfOk result (λ _. each (spec.address_undefined names.now unit symbols.now) parts.now ≡ []) }
    ensures first { (name : List ℕ) → result ≡ Err (N2 name) → slice_get (each (spec.address_undefined names.now unit symbols.now) parts.now) 0 ≡ Some name }
{
    for part in parts {
        judge_address(alloc, names, unit, symbols, part)?;
    }
    Ok(())
}

// Judges a part of the data of a unit, where it's an address.
fn judge_address(
    alloc: Global,
    names: &Names<'_>,
    unit: usize,
    symbols: &[Symbol],
    part: &DataPart,
) -> Result<(), SymbolNo>
    requires { IsValidData (length symbols.now) part.now }
    ensures defined { (number : ℕ) → IfOk result (λ _. spec.address_undefined names.now unit symbols.now number part.now ≡ []) }
    ensures first { (number : ℕ) (name : List ℕ) → result ≡ Err (N2 name) → slice_get (spec.address_undefined names.now unit symbols.now number part.now) 0 ≡ Some name }
{
    match part.address {
        None => Ok(()),
        Some((sym, _)) => judge_symbol(alloc, names, unit, symbols, sym),
    }
}

/// Judges whether the symbol of this number in the unit of this number stands for something, by the names of its build.
///
/// `N2` comes exactly where it does not. `Memory` comes only for want of memory.
pub fn judge_symbol(
    alloc: Global,
    names: &Names<'_>,
    unit: usize,
    symbols: &[Symbol],
    sym: u32,
) -> Result<(), SymbolNo>
    requires within { sym < length symbols.now }
    ensures defined { IfOk result (λ _. spec.undefined names.now (key_at unit symbols.now sym) ≡ []) }
    ensures first { (name : List ℕ) → result ≡ Err (N2 name) → slice_get (spec.undefined names.now (key_at unit symbols.now sym)) 0 ≡ Some name }
{
    let symbol = &symbols[sym as usize];
    if names.symbol(unit, symbol).is_some() {
        Ok(())
    } else {
        Err(SymbolNo::N2(Name::from_slice(alloc, symbol.name.as_slice())?))
    }
}

/// Judges whether the entry of a build is a function that every unit sees, by the build's names.
///
/// `N2` comes exactly where it is none, with its name. `Memory` comes only for want of memory.
pub fn judge_entry(alloc: Global, names: &Names<'_>, entry: &Name) -> Result<(), SymbolNo>
    ensures function { IfOk result (λ _. spec.is_function (meaning_in names.now (entry.now, None)) ≡ true) }
    ensures none { (name : List ℕ) → result ≡ Err (N2 name) → spec.is_function (meaning_in names.now (entry.now, None)) ≡ false }
    ensures named { (name : List ℕ) → result ≡ Err (N2 name) → name ≡ entry.now }
{
    if is_function(names.global(entry.as_slice())) {
        Ok(())
    } else {
        Err(SymbolNo::N2(entry.copy(alloc)?))
    }
}

fn is_function(meaning: Option<Meaning>) -> bool
    ensures { result ≡ spec.is_function meaning }
{
    match meaning {
        Some(Meaning::Function { unit: _, number: _ }) => true,
        _ => false,
    }
}
