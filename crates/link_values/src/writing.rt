ghost use Rattle.std.specs.Prelude.{◌≡◌, ◌+◌, ◌<◌, ◌≤◌, All, length};
ghost use Rattle.std.specs.Int.{w64, to_le_bytes};
ghost use Rattle.asm_parse.specs.Valid.{IsValidUnit, IsValidData};
ghost use Rattle.link_names.specs.Definitions.{each, key_at, meaning_in};
ghost use Rattle.link_places.specs.Addresses.{address_in};
ghost use Rattle.link_values.specs.Values as spec;
ghost use Rattle.link_values.specs.Written.{IsInside, written, written_over};

use asm_parse::{DataPart, Symbol, Unit};
use link_names::Names;
use link_places::Addresses;

/// Writes what the `DATA` statements of units give, each behind the place of what its symbol stands for.
pub fn write_units(
    bytes: &mut [u8],
    names: &Names<'_>,
    places: &Addresses,
    addresses: &Addresses,
    units: &[Unit],
)
    requires valid { All IsValidUnit units.now }
    requires inside { All (IsInside (length bytes.old)) (spec.writes_of names.now places.now addresses.now units.now) }
    ensures { bytes.new ≡ written_over bytes.old (spec.writes_of names.now places.now addresses.now units.now) }
{
    for (number, unit) in units.iter().enumerate() {
        write_unit(bytes, names, places, addresses, number, unit);
    }
}

fn write_unit(
    bytes: &mut [u8],
    names: &Names<'_>,
    places: &Addresses,
    addresses: &Addresses,
    number: usize,
    unit: &Unit,
)
    requires valid { IsValidUnit unit.now }
    requires inside { All (IsInside (length bytes.old)) (spec.unit_writes names.now places.now addresses.now number unit.now) }
    ensures { bytes.new ≡ written_over bytes.old (spec.unit_writes names.now places.now addresses.now number unit.now) }
{
    write_parts(
        bytes,
        names,
        places,
        addresses,
        number,
        unit.symbols.as_slice(),
        unit.values.as_slice(),
    );
}

fn write_parts(
    bytes: &mut [u8],
    names: &Names<'_>,
    places: &Addresses,
    addresses: &Addresses,
    unit: usize,
    symbols: &[Symbol],
    parts: &[DataPart],
)
    requires valid { All (IsValidData (length symbols.now)) parts.now }
    requires inside { All (IsInside (length bytes.old)) (each (spec.part_writes names.now places.now addresses.now unit symbols.now) parts.now) }
    ensures { bytes.new ≡ written_over bytes.old (each (spec.part_writes names.now places.now addresses.now unit symbols.now) parts.now) }
{
    for part in parts {
        write_part(bytes, names, places, addresses, unit, symbols, part);
    }
}

fn write_part(
    bytes: &mut [u8],
    names: &Names<'_>,
    places: &Addresses,
    addresses: &Addresses,
    unit: usize,
    symbols: &[Symbol],
    part: &DataPart,
)
    requires valid { IsValidData (length symbols.now) part.now }
    requires inside { IsInside (length bytes.old) (spec.part_write names.now places.now addresses.now unit symbols.now part.now) }
    ensures { bytes.new ≡ written bytes.old (spec.part_write names.now places.now addresses.now unit symbols.now part.now) }
{
    let at = address_of(names, places, unit, symbols, part.sym) as usize + part.off as usize;
    match part.address {
        None => write_at(bytes, at, part.bytes.as_slice()),
        Some((sym, offset)) => {
            let address = address_of(names, addresses, unit, symbols, sym);
            write_word(bytes, at, address.wrapping_add_signed(offset));
        }
    }
}

// The address of the symbol of this number, or 0 where it has none.
fn address_of(
    names: &Names<'_>,
    addresses: &Addresses,
    unit: usize,
    symbols: &[Symbol],
    sym: u32,
) -> u64
    requires { sym < length symbols.now }
    ensures { result ≡ spec.address_of names.now addresses.now unit symbols.now sym }
{
    let symbol = &symbols[sym as usize];
    addresses.of_symbol(names, unit, symbol).unwrap_or(0)
}

// Writes a number of eight bytes, the lowest first.
fn write_word(bytes: &mut [u8], at: usize, word: u64)
    requires { at + 8 ≤ length bytes.old }
    ensures { bytes.new ≡ written bytes.old (at, to_le_bytes w64 word) }
{
    write_at(bytes, at, &word.to_le_bytes());
}

fn write_at(bytes: &mut [u8], at: usize, part: &[u8])
    requires { at + length part.now ≤ length bytes.old }
    ensures { bytes.new ≡ written bytes.old (at, part.now) }
{
    bytes[at..at + part.len()].copy_from_slice(part);
}
