// The symbols of an image that lie outside it.
ghost use Rattle.std.specs.Prelude.{◌≡◌, ◌+◌, ◌*◌, ◌≤◌, length};
ghost use Rattle.elf_image.specs.Rows.{number_at, symbol_size};
ghost use Rattle.elf_image.specs.declared.rows.Width.TheVariants.{Word, Xword};
ghost use Rattle.elf_image.specs.Image.{IsImage, IsReady, count_in, symbols_start, names_in};
ghost use Rattle.elf_image.specs.Contents as spec;
ghost use Rattle.elf_image.specs.Contents.{IsFirstOutside};

use crate::group::Group;
use crate::layout::{layout_of, sizes_in};
use crate::rows::{SYMBOL_SIZE, Width};
use crate::symbol_table::names_in;
use crate::symbols::first_zero;
use goasm_base::behind_or_empty;

/// How many symbols there are behind the first, which is none.
#[tactic(auto, using(crate::proofs::LayoutLemmas::ends_before))]
pub fn count_in(bytes: &[u8]) -> u64
    requires { IsReady bytes.now }
    ensures count { result ≡ count_in bytes.now }
    ensures within { symbols_start bytes.now + symbol_size * result ≤ length bytes.now }
{
    sizes_in(bytes).symbols / SYMBOL_SIZE - 1
}

/// Where they begin.
#[tactic(auto, using(crate::proofs::LayoutLemmas::ends_before))]
pub fn symbols_start(bytes: &[u8]) -> u64
    requires { IsReady bytes.now }
    ensures { result ≡ symbols_start bytes.now }
{
    layout_of(sizes_in(bytes)).symbols + SYMBOL_SIZE
}

fn lies_outside(bytes: &[u8], at: u64) -> bool
    requires { at + symbol_size ≤ length bytes.now }
    ensures { result ≡ spec.lies_outside bytes.now at }
{
    Width::Char.number_at(bytes, at as usize + 4) == Group::Outside.info()
}

/// The number of the first symbol that lies outside the image; the number of all where none does.
#[tactic(auto, using(crate::proofs::OutsideLemmas::outside_next, crate::proofs::OutsideLemmas::outside_found, crate::proofs::OutsideLemmas::outside_none))]
pub fn first_outside(bytes: &[u8]) -> u64
    requires image { IsImage bytes.now }
    requires ready { IsReady bytes.now }
    ensures { IsFirstOutside bytes.now result }
{
    let count = count_in(bytes);
    let start = symbols_start(bytes);
    for index in 0..count {
        if lies_outside(bytes, start + SYMBOL_SIZE * index) {
            return index;
        }
    }
    count
}

/// The name of the symbol at a place, up to its zero byte.
pub fn name_at(bytes: &[u8], at: u64) -> &[u8]
    requires ready { IsReady bytes.now }
    requires long { at + symbol_size ≤ length bytes.now }
    ensures { result.now ≡ spec.name_in (names_in bytes.now) (number_at bytes.now at Word) }
{
    let place = Width::Word.number_at(bytes, at as usize);
    let rest = behind_or_empty(names_in(bytes), place as usize);
    match first_zero(rest) {
        Some(size) => &rest[..size],
        None => rest,
    }
}

/// The address of the symbol at a place.
pub fn address_at(bytes: &[u8], at: u64) -> u64
    requires { at + symbol_size ≤ length bytes.now }
    ensures { result ≡ number_at bytes.now (at + 8) Xword }
{
    Width::Xword.number_at(bytes, at as usize + 8)
}
