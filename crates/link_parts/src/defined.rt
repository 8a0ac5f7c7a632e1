ghost use Rattle.std.specs.Prelude.{◌≡◌, ℕ, ◌+◌, ◌<◌, ◌^◌, All, length, map, Some, IfOk};
ghost use Rattle.asm_grammar.specs.Names.{HasNoZero};
ghost use Rattle.link_build.specs.Functions.{seen};
ghost use Rattle.link_symbols.specs.Table.{HasName, symbol_of};
ghost use Rattle.link_parts.specs.Planned.{HasSymbol, HavePlaces, IsDeclared};
ghost use Rattle.link_parts.specs.Symbols as spec;

use asm_parse::{Symbol, Unit};
use goasm_base::Memory;
use link_build::Func;
use link_plan::TEXT_ADDRESS;
use link_symbols::Defined;
use link_values::KeptValue;
use std::alloc::Global;

/// Functions as symbols of an image, each at its place of the text.
///
/// `Memory` comes only for want of memory.
pub fn defined_functions<'a, I>(
    alloc: Global,
    funcs: &[Func<'_, 'a, I>],
    at: &[u64],
) -> Result<Vec<Defined<'a>>, Memory>
    requires symbols { All HasSymbol (map seen funcs.now) }
    requires places { HavePlaces (length funcs.now) at.now }
    ensures symbols { IfOk result (λ defined. map (symbol_of 0) defined.items ≡ spec.function_symbols (map seen funcs.now) at.now) }
    ensures names { IfOk result (λ defined. All HasName defined.items) }
{
    let mut defined = Vec::new(alloc);
    for (number, func) in funcs.iter().enumerate() {
        defined.push(defined_function(func, TEXT_ADDRESS + at[number]))?;
    }
    Ok(defined)
}

// A function as a symbol of an image.
fn defined_function<'a, I>(func: &Func<'_, 'a, I>, at: u64) -> Defined<'a>
    requires { HasSymbol (seen func.now) }
    ensures symbol { symbol_of 0 result ≡ spec.part_of 0 (spec.function_thing (seen func.now)) at }
    ensures name { HasName result }
{
    let symbol = &func.unit.symbols.as_slice()[func.part.function.sym as usize];
    defined(symbol, at, u64::from(func.part.laid.sizes.length))
}

/// Data as symbols of an image, each at its place behind an address.
///
/// `Memory` comes only for want of memory.
pub fn defined_values<'a>(
    alloc: Global,
    units: &'a [Unit],
    kept: &[KeptValue],
    from: u64,
    at: &[u64],
) -> Result<Vec<Defined<'a>>, Memory>
    requires declared { All (IsDeclared units.now) kept.now }
    requires places { HavePlaces (length kept.now) at.now }
    requires small { from < 2 ^ 31 }
    ensures symbols { IfOk result (λ defined. map (symbol_of 1) defined.items ≡ spec.value_symbols units.now kept.now from at.now) }
    ensures names { IfOk result (λ defined. All HasName defined.items) }
{
    let mut defined = Vec::new(alloc);
    for (number, value) in kept.iter().enumerate() {
        defined.push(defined_value(units, value, from + at[number]))?;
    }
    Ok(defined)
}

// Data as a symbol of an image.
fn defined_value<'a>(units: &'a [Unit], value: &KeptValue, at: u64) -> Defined<'a>
    requires { IsDeclared units.now value.now }
    ensures symbol { symbol_of 1 result ≡ spec.part_of 1 (spec.value_thing units.now value.now) at }
    ensures name { HasName result }
{
    let unit = &units[value.unit];
    let global = &unit.globals.as_slice()[value.number];
    let symbol = &unit.symbols.as_slice()[global.sym as usize];
    defined(symbol, at, value.size)
}

fn defined<'a>(symbol: &'a Symbol, at: u64, size: u64) -> Defined<'a>
    requires { HasNoZero symbol.now.name }
    ensures symbol { (kind : ℕ) → symbol_of kind result ≡ spec.part_of kind (Some symbol.now, size) at }
    ensures name { HasName result }
{
    Defined {
        name: symbol.name.as_slice(),
        local: symbol.fixed,
        at,
        size,
    }
}
