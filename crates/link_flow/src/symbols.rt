ghost use Rattle.std.specs.Prelude.{◌≡◌, OnOk, Some, map};
ghost use Rattle.link_build.specs.Functions.{seen};
ghost use Rattle.link_flow.specs.Codes as spec;

use goasm_base::Memory;
use link_build::Func;
use link_names::Names;
use link_places::Addresses;
use link_plan::unit_addresses;
use std::alloc::Global;

/// The addresses of the symbols of a unit, so that they are found once for all of its functions.
#[derive(Drop)]
pub struct UnitSymbols {
    /// The unit's number; none at first.
    pub unit: Option<usize>,
    /// The address of each symbol.
    pub at: Vec<u64>,
}

/// Makes them those of the unit of a function.
pub fn turn_to<I>(
    alloc: Global,
    symbols: &mut UnitSymbols,
    names: &Names<'_>,
    addresses: &Addresses,
    func: &Func<'_, '_, I>,
) -> Result<(), Memory>
    requires { spec.AreKnown names.now addresses.now symbols.now (seen func.now) }
    ensures unit { OnOk result (symbols.new.unit ≡ Some func.now.number) }
    ensures at { OnOk result (symbols.new.at.items ≡ spec.symbols_of names.now addresses.now (seen func.now)) }
{
    if symbols.unit != Some(func.number) {
        symbols.at = unit_addresses(alloc, names, addresses, func.number, func.unit)?;
        symbols.unit = Some(func.number);
    }
    Ok(())
}
