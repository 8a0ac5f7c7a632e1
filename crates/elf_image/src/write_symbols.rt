// The symbols of an image and their names, as they are written.
ghost use Rattle.std.specs.Prelude.{◌≡◌, ◌+◌, ◌^◌, ◌<◌, length, IfOk};
ghost use Rattle.elf_image.specs.Parts as parts_spec;
ghost use Rattle.elf_image.specs.Written as spec;

use crate::group::Group;
use crate::parts::SymbolPart;
use crate::rows::Wanted::Is;
use crate::rows::{Row, push_rows};
use crate::symbols::{null_symbol, symbol_rows};
use goasm_base::Memory;
use std::alloc::Global;

fn group_of(part: &SymbolPart) -> Group
    ensures { result ≡ parts_spec.group_of_part part.now }
{
    match (part.kind, part.local) {
        (0, true) => Group::LocalFunctions,
        (0, false) => Group::GlobalFunctions,
        (1, true) => Group::LocalValues,
        (1, false) => Group::GlobalValues,
        _ => Group::Outside,
    }
}

fn part_rows(part: &SymbolPart, place: u64) -> [Row; 6]
    ensures { result ≡ spec.part_rows place part.now }
{
    let group = group_of(part);
    symbol_rows(place, Is(group.info()), group, Is(part.at), Is(part.size))
}

/// The symbol table, the names of whose symbols stand behind one another.
#[tactic(auto, unfolding(crate::specs::Written::symbol_bytes), using(crate::proofs::WriteLemmas::symbols_next, crate::proofs::WriteLemmas::symbols_all))]
pub fn symbol_bytes(alloc: Global, symbols: &[SymbolPart]) -> Result<Vec<u8>, Memory>
    requires { length (spec.string_bytes symbols.now) < 2 ^ 63 }
    ensures { IfOk result (λ bytes. bytes.items ≡ spec.symbol_bytes symbols.now) }
{
    let mut bytes = Vec::new(alloc);
    push_rows(&mut bytes, &null_symbol())?;
    let mut place = 1;
    for part in symbols {
        push_rows(&mut bytes, &part_rows(part, place))?;
        place += part.name.as_slice().len() as u64 + 1;
    }
    Ok(bytes)
}

/// The names of the symbols.
#[tactic(auto, unfolding(crate::specs::Written::string_bytes), using(byte_layout::proofs::PushedLemmas::pushed_none, byte_layout::proofs::PushedLemmas::pushed_next, byte_layout::proofs::PushedLemmas::pushed_all))]
pub fn string_bytes(alloc: Global, symbols: &[SymbolPart]) -> Result<Vec<u8>, Memory>
    ensures { IfOk result (λ bytes. bytes.items ≡ spec.string_bytes symbols.now) }
{
    let mut bytes = Vec::new(alloc);
    bytes.push(0)?;
    for part in symbols {
        bytes.extend_from_slice(part.name.as_slice())?;
        bytes.push(0)?;
    }
    Ok(bytes)
}

/// The number of the first symbol that isn't local.
pub fn locals_of(symbols: &[SymbolPart]) -> u64
    ensures { result ≡ spec.locals_of symbols.now }
{
    1 + symbols
        .iter()
        .filter(|part| group_of(part).is_local())
        .count() as u64
}
