// The pages of a memory, by their numbers: page n has the bytes from address 4096 n on.
ghost use Rattle.std.specs.Prelude.{◌≡◌, ℕ, ◌+◌, ◌*◌, ◌/◌, ◌<◌, ◌≤◌, ◌^◌, length, IsSome, IfSome, IsTrue, OnOk, Some, None, true, false};
ghost use Rattle.std.specs.Ordering.{nat_cmp};
ghost use Rattle.std.specs.BTreeMap as tree;
ghost use Rattle.machine_effect.specs.Page.{page_size};
ghost use Rattle.machine_effect.specs.Pages.{byte_in, HasPage, HasLowPages, SameBytes, SamePages, WritesBytes, IsFirstPage, IsFirstByte};

use crate::page::{PAGE, Page};
use goasm_base::Memory;
use std::alloc::Global;
use std::collections::BTreeMap;

pub type Pages = BTreeMap<u64, Page>;

/// Makes the pages from the first number to the last that aren't there. They have no byte, so no byte changes.
pub fn make(alloc: Global, pages: &mut Pages, first: u64, last: u64) -> Result<(), Memory>
    requires { last < 2 ^ 52 }
    ensures same { SameBytes pages.old pages.new }
    ensures low { HasLowPages pages.old → HasLowPages pages.new }
    ensures made { OnOk result ((n : ℕ) → first ≤ n → n ≤ last → HasPage pages.new n) }
{
    for number in first..last + 1 {
        make_one(alloc, pages, number)?;
    }
    Ok(())
}

fn make_one(alloc: Global, pages: &mut Pages, number: u64) -> Result<(), Memory>
    requires { number < 2 ^ 52 }
    ensures same { SameBytes pages.old pages.new }
    ensures low { HasLowPages pages.old → HasLowPages pages.new }
    ensures kept { (n : ℕ) → HasPage pages.old n → HasPage pages.new n }
    ensures made { OnOk result (HasPage pages.new number) }
{
    if !pages.contains_key(&number) {
        pages.insert(number, Page::new(alloc)?)?;
    }
    Ok(())
}

/// Sets bytes whose pages are there. That takes no memory.
pub fn write(pages: &mut Pages, at: u64, bytes: &[u8])
    requires fits { at + length bytes.now ≤ 2 ^ 64 }
    requires made { (k : ℕ) → k < length bytes.now → HasPage pages.old ((at + k) / page_size) }
    ensures written { WritesBytes pages.old pages.new at bytes.now }
    ensures same { SamePages pages.old pages.new }
{
    let mut done = 0;
    while done < bytes.len() {
        let start = at + done as u64;
        let place = (start % PAGE) as usize;
        let count = (bytes.len() - done).min(PAGE as usize - place);
        write_one(pages, start / PAGE, place, &bytes[done..done + count]);
        done += count;
    }
}

// Sets bytes within one page.
fn write_one(pages: &mut Pages, number: u64, place: usize, bytes: &[u8])
    requires within { place + length bytes.now ≤ page_size }
    requires made { HasPage pages.old number }
    ensures written { WritesBytes pages.old pages.new (page_size * number + place) bytes.now }
    ensures same { SamePages pages.old pages.new }
{
    if let Some(page) = pages.get_mut(&number) {
        page.write(place, bytes);
    }
}

/// The byte at an address, where there is one.
pub fn byte(pages: &Pages, at: u64) -> Option<u8>
    ensures { result ≡ byte_in pages.now at }
{
    pages.get(&(at / PAGE))?.byte((at % PAGE) as usize)
}

/// The first address from this one on that has a byte. Each page that has none costs one look-up.
pub fn first_from(pages: &Pages, from: u64) -> Option<u64>
    requires { HasLowPages pages.now }
    ensures some { IfSome result (λ at. IsFirstByte pages.now from at) }
    ensures none { result ≡ None → (q : ℕ) → from ≤ q → byte_in pages.now q ≡ None }
{
    let mut number = from / PAGE;
    let mut place = (from % PAGE) as usize;
    while let Some((found, page)) = first_page(pages, number) {
        if let Some(place) = page.first_from(start_in(found, number, place)) {
            return Some(found * PAGE + place as u64);
        }
        number = found + 1;
        place = 0;
    }
    None
}

// Where a page is looked at from on: one behind the number from its first place on.
fn start_in(found: u64, number: u64, place: usize) -> usize
    ensures here { found ≡ number → result ≡ place }
    ensures behind { number < found → result ≡ 0 }
{
    if found > number { 0 } else { place }
}

// The first page whose number is at least this.
fn first_page(pages: &Pages, number: u64) -> Option<(u64, &Page)>
    ensures some { IfSome result (λ found. IsFirstPage pages.now number found.0 found.1.now) }
    ensures none { result ≡ None → (n : ℕ) → number ≤ n → tree.get nat_cmp pages.now n ≡ None }
{
    match pages.range(number..).next() {
        Some((found, page)) => Some((*found, page)),
        None => None,
    }
}
