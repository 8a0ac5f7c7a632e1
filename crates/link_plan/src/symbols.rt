ghost use Rattle.std.specs.Prelude.{◌≡◌, map, IfOk};
ghost use Rattle.link_plan.specs.Addresses as spec;

use asm_parse::{Symbol, Unit};
use goasm_base::Memory;
use link_functions::growth_of;
use link_names::Names;
use link_places::Addresses;
use std::alloc::Global;

/// The addresses of what the symbols of the unit of this number stand for, by the names of its build, in the order of the symbols; 0 of
/// one that stands for nothing.
///
/// `Memory` comes only for want of memory.
pub fn unit_addresses(
    alloc: Global,
    names: &Names<'_>,
    addresses: &Addresses,
    number: usize,
    unit: &Unit,
) -> Result<Vec<u64>, Memory>
    ensures { IfOk result (λ found. found.items ≡ map (spec.symbol_address names.now addresses.now number) unit.now.symbols) }
{
    let found = symbol_addresses(alloc, names, addresses, number, unit.symbols.as_slice())?;
    Ok(found)
}

fn symbol_addresses(
    alloc: Global,
    names: &Names<'_>,
    addresses: &Addresses,
    unit: usize,
    symbols: &[Symbol],
) -> Result<Vec<u64>, Memory>
    ensures { IfOk result (λ found. found.items ≡ map (spec.symbol_address names.now addresses.now unit) symbols.now) }
{
    let mut found = Vec::new(alloc);
    for symbol in symbols {
        found.push(symbol_address(names, addresses, unit, symbol))?;
    }
    Ok(found)
}

fn symbol_address(names: &Names<'_>, addresses: &Addresses, unit: usize, symbol: &Symbol) -> u64
    ensures { result ≡ spec.symbol_address names.now addresses.now unit symbol.now }
{
    addresses.of_symbol(names, unit, symbol).unwrap_or(0)
}

/// The address of the routine that grows the stack of a function with these flags, by the names of its build: of
/// `runtime.morestack_noctxt`, or of `runtime.morestack` where the function has the flag NEEDCTXT. 0 where the name stands for nothing.
pub fn growth_address(names: &Names<'_>, addresses: &Addresses, flags: u32) -> u64
    ensures { result ≡ spec.growth_address names.now addresses.now flags }
{
    addresses.of_name(names, growth_of(flags)).unwrap_or(0)
}
