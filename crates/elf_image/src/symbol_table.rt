// The symbol table of an image as a whole.
ghost use Rattle.std.specs.Prelude.{◌≡◌, ◌+◌, ◌≤◌, length, take, drop};
ghost use Rattle.elf_image.specs.Layout as spec;
ghost use Rattle.elf_image.specs.Image.{IsReady, names_in};
ghost use Rattle.elf_image.specs.Faults.{Judges, end_fault, null_fault, others_fault, symbols_fault};

use crate::fault::ImageNo::{self, I3};
use crate::layout::{ENTRY_PLACE, layout_of, section_at, sizes_in};
use crate::rows::{SYMBOL_SIZE, Width, first_fault};
use crate::symbols::{Reading, null_symbol, read_symbols};

/// The bytes of a part.
pub fn part_of(bytes: &[u8], at: u64, size: u64) -> &[u8]
    requires { at + size ≤ length bytes.now }
    ensures { result.now ≡ take size (drop at bytes.now) }
{
    let at = at as usize;
    &bytes[at..at + size as usize]
}

/// The address at which the program begins.
pub fn entry_in(bytes: &[u8]) -> u64
    requires { spec.headers_size ≤ length bytes.now }
    ensures { result ≡ spec.entry_in bytes.now }
{
    Width::Xword.number_at(bytes, ENTRY_PLACE as usize)
}

/// The names of the symbols.
#[tactic(auto, using(crate::proofs::LayoutLemmas::ends_before))]
pub fn names_in(bytes: &[u8]) -> &[u8]
    requires { IsReady bytes.now }
    ensures { result.now ≡ names_in bytes.now }
{
    let sizes = sizes_in(bytes);
    part_of(bytes, layout_of(sizes).strings, sizes.strings)
}

#[tactic(auto, unfolding(crate::specs::Faults::end_fault))]
fn judge_end(bytes: &[u8], last: Reading) -> Result<(), ImageNo>
    requires { IsReady bytes.now }
    ensures { Judges result (end_fault bytes.now last) }
{
    let names = names_in(bytes);
    let strings = layout_of(sizes_in(bytes)).strings;
    let info = section_at(bytes, 4) + 44;
    if Width::Word.number_at(bytes, info) != last.locals {
        return Err(I3(info as u64));
    }
    if names.is_empty() || names[0] != 0 {
        return Err(I3(strings));
    }
    if last.place < names.len() as u64 {
        return Err(I3(strings + last.place));
    }
    if !last.entered {
        return Err(I3(ENTRY_PLACE));
    }
    Ok(())
}

// The symbols behind the first.
#[tactic(auto, unfolding(crate::specs::Faults::others_fault), using(crate::proofs::LayoutLemmas::ends_before))]
fn judge_others(bytes: &[u8]) -> Result<(), ImageNo>
    requires { IsReady bytes.now }
    ensures { Judges result (others_fault bytes.now) }
{
    let sizes = sizes_in(bytes);
    let count = sizes.symbols / SYMBOL_SIZE - 1;
    let start = layout_of(sizes).symbols + SYMBOL_SIZE;
    match read_symbols(names_in(bytes), bytes, entry_in(bytes), count, start) {
        Ok(last) => judge_end(bytes, last),
        Err(at) => Err(I3(at)),
    }
}

#[tactic(auto, unfolding(crate::specs::Faults::null_fault), using(crate::proofs::LayoutLemmas::ends_before))]
fn judge_null(bytes: &[u8]) -> Result<(), ImageNo>
    requires { IsReady bytes.now }
    ensures { Judges result (null_fault bytes.now) }
{
    let symbols = layout_of(sizes_in(bytes)).symbols;
    if first_fault(bytes, symbols as usize, &null_symbol()).is_some() {
        return Err(I3(symbols));
    }
    Ok(())
}

/// Refuses the first symbol that isn't as it has to be, and then what the symbols together have to be.
#[tactic(auto, unfolding(crate::specs::Faults::symbols_fault))]
pub fn judge_symbols(bytes: &[u8]) -> Result<(), ImageNo>
    requires { IsReady bytes.now }
    ensures { Judges result (symbols_fault bytes.now) }
{
    judge_null(bytes)?;
    judge_others(bytes)
}
