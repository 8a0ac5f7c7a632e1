ghost use Rattle.std.specs.Prelude.{◌≡◌, ◌≤◌, ◌++◌, ℕ, All, map, filter, None, Some, IfOk, OnOk, IsTrue};
ghost use Rattle.std.specs.List.{list_any, slice_get};
ghost use Rattle.std.specs.List.Sorted.{IsStrictlyIncreasing};
ghost use Rattle.elf_image.specs.Parts.{IsPart, AreOrdered, is_entry};
ghost use Rattle.elf_image.specs.Contents.{outside_of};
ghost use Rattle.link_symbols.specs.Table as spec;
ghost use Rattle.link_symbols.specs.Table.{IsName, HasName, addresses_of};
ghost use Rattle.link_symbols.specs.declared.defined.Defined.{Defined};

use crate::defined::Defined;
use elf_image::SymbolPart;
use goasm_base::{Memory, Name};
use std::alloc::Global;

/// The symbols of an image with these functions, by rising address, these values, and these names outside it with their
/// addresses, as `elf_image::write` wants them: the functions that only the image sees, its values of that kind, the other
/// functions, the other values, and what lies outside, each in the order in which it is listed.
///
/// `Memory` comes only for want of memory.
#[tactic(auto, using(crate::proofs::OrderLemmas::all_ordered, crate::proofs::TableLemmas::all_outside, crate::proofs::TableLemmas::has_entry))]
pub fn symbols_of(
    alloc: Global,
    functions: &[Defined<'_>],
    values: &[Defined<'_>],
    outside: &[(Name, u64)],
) -> Result<Vec<SymbolPart>, Memory>
    requires rising { IsStrictlyIncreasing (addresses_of functions.now) }
    requires function_names { All HasName functions.now }
    requires value_names { All HasName values.now }
    requires outside_names { All (λ one. IsName one.0) outside.now }
    ensures symbols { IfOk result (λ symbols. symbols.items ≡ spec.symbols_of functions.now values.now outside.now) }
    ensures parts { IfOk result (λ symbols. All IsPart symbols.items) }
    ensures order { IfOk result (λ symbols. AreOrdered None symbols.items) }
    ensures outside { IfOk result (λ symbols. outside_of symbols.items ≡ outside.now) }
    ensures entry { (number : ℕ) (function : Defined) → slice_get functions.now number ≡ Some function
        → IfOk result (λ symbols. IsTrue (list_any (is_entry function.at) symbols.items)) }
{
    let mut symbols = Vec::new(alloc);
    push_defined(&mut symbols, alloc, functions, 0, true)?;
    push_defined(&mut symbols, alloc, values, 1, true)?;
    push_defined(&mut symbols, alloc, functions, 0, false)?;
    push_defined(&mut symbols, alloc, values, 1, false)?;
    push_outside(&mut symbols, alloc, outside)?;
    Ok(symbols)
}

// Adds the symbols of what only the image sees, or of what all see.
fn push_defined(
    symbols: &mut Vec<SymbolPart>,
    alloc: Global,
    defined: &[Defined<'_>],
    kind: u8,
    local: bool,
) -> Result<(), Memory>
    requires kind { kind ≤ 1 }
    requires names { All HasName defined.now }
    requires parts { All IsPart symbols.old.items }
    ensures adds { OnOk result (symbols.new.items ≡ symbols.old.items ++ map (spec.symbol_of kind) (filter (spec.is_among local) defined.now)) }
    ensures parts { OnOk result (All IsPart symbols.new.items) }
{
    for one in defined {
        if one.is_among(local) {
            symbols.push(one.symbol(alloc, kind)?)?;
        }
    }
    Ok(())
}

// The symbol of a name outside the image.
fn outside_symbol(alloc: Global, name: &Name, at: u64) -> Result<SymbolPart, Memory>
    requires { IsName name.now }
    ensures symbol { IfOk result (λ symbol. symbol ≡ spec.outside_symbol (name.now, at)) }
    ensures part { IfOk result IsPart }
{
    Ok(SymbolPart {
        name: name.copy(alloc)?,
        at,
        size: 0,
        kind: 2,
        local: false,
    })
}

// Adds the symbols of what lies outside the image.
fn push_outside(
    symbols: &mut Vec<SymbolPart>,
    alloc: Global,
    outside: &[(Name, u64)],
) -> Result<(), Memory>
    requires names { All (λ one. IsName one.0) outside.now }
    requires parts { All IsPart symbols.old.items }
    ensures adds { OnOk result (symbols.new.items ≡ symbols.old.items ++ map spec.outside_symbol outside.now) }
    ensures parts { OnOk result (All IsPart symbols.new.items) }
{
    for (name, at) in outside {
        symbols.push(outside_symbol(alloc, name, *at)?)?;
    }
    Ok(())
}
