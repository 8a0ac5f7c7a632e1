ghost use Rattle.std.specs.Prelude.{◌≡◌, ℕ, [], ◌^◌, ◌<◌, ◌≤◌, All, length, slice_index, unwrap_or, IfOk};
ghost use Rattle.asm_parse.specs.Valid.{IsValidUnit};
ghost use Rattle.link_names.specs.Data.{misplaced};
ghost use Rattle.link_places.specs.Addresses.{TellsAs};
ghost use Rattle.link_places.specs.Places.{places_from, end_from};
ghost use Rattle.link_values.specs.Kept.{kept_values, sizes_of, placed};
ghost use Rattle.link_values.specs.Values as spec;
ghost use Rattle.link_values.specs.Written.{IsInside, last_byte};

use crate::kept::KeptValue;
use crate::writing::write_units;
use asm_parse::Unit;
use goasm_base::Memory;
use link_names::{Meaning, Names};
use link_places::{Addresses, Places};
use std::alloc::Global;

/// The bytes of a build's data, whose `DATA` statements all have room: zeros, over which each of them writes, by units and in their
/// order. Where several write a byte, the last one's stands.
///
/// A `DATA` writes into what its symbol stands for, also where another unit declares that. The address of a symbol is eight bytes, the
/// lowest first: the one that is told of what the symbol stands for, or 0 where none is, and the offset, modulo 2^64.
///
/// `Memory` comes only for want of memory.
pub fn value_bytes(
    alloc: Global,
    units: &[Unit],
    names: &Names<'_>,
    kept: &[KeptValue],
    places: &Places,
    addresses: &Addresses,
) -> Result<Vec<u8>, Memory>
    requires valid { All IsValidUnit units.now }
    requires kept { kept.now ≡ kept_values names.now units.now }
    requires placed { places.now.at ≡ places_from 0 (sizes_of kept.now) }
    requires ended { places.now.end ≡ end_from 0 (sizes_of kept.now) }
    requires small { places.now.end ≤ 2 ^ 24 }
    requires named { spec.AreNamesOf names.now units.now }
    requires room { misplaced units.now names.now ≡ [] }
    ensures written { IfOk result (λ bytes. bytes.items ≡ spec.value_bytes names.now units.now addresses.now) }
    ensures length { IfOk result (λ bytes. length bytes.items ≡ spec.values_end names.now units.now) }
    ensures byte { IfOk result (λ bytes. (place : ℕ) → place < spec.values_end names.now units.now
        → slice_index bytes.items place ≡ unwrap_or (last_byte (spec.value_writes names.now units.now addresses.now) place) 0) }
{
    let bytes = written_bytes(alloc, units, names, kept, places, addresses)?;
    Ok(bytes)
}

// The same, where all writes are known to lie within the bytes.
fn written_bytes(
    alloc: Global,
    units: &[Unit],
    names: &Names<'_>,
    kept: &[KeptValue],
    places: &Places,
    addresses: &Addresses,
) -> Result<Vec<u8>, Memory>
    requires valid { All IsValidUnit units.now }
    requires kept { kept.now ≡ kept_values names.now units.now }
    requires placed { places.now.at ≡ places_from 0 (sizes_of kept.now) }
    requires ended { places.now.end ≡ end_from 0 (sizes_of kept.now) }
    requires small { places.now.end ≤ 2 ^ 24 }
    requires inside { All (IsInside (spec.values_end names.now units.now)) (spec.value_writes names.now units.now addresses.now) }
    ensures { IfOk result (λ bytes. bytes.items ≡ spec.value_bytes names.now units.now addresses.now) }
{
    let at = places_by_meaning(alloc, kept, places.at.as_slice())?;
    let mut bytes = vec![in alloc; 0u8; places.end as usize]?;
    write_units(bytes.as_mut_slice(), names, &at, addresses, units);
    Ok(bytes)
}

// Where data stands, by what a symbol stands for.
fn places_by_meaning(alloc: Global, kept: &[KeptValue], at: &[u64]) -> Result<Addresses, Memory>
    requires { length kept.now ≡ length at.now }
    ensures { IfOk result (λ places. TellsAs places (placed kept.now at.now)) }
{
    let mut places = Addresses::new(alloc);
    for (number, value) in kept.iter().enumerate() {
        let meaning = Meaning::Value {
            unit: value.unit,
            number: value.number,
        };
        places.insert(meaning, at[number])?;
    }
    Ok(places)
}
