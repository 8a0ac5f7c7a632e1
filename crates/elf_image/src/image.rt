ghost use Rattle.std.specs.Prelude.{◌≡◌, ◌↔◌, None, slice_get, IfOk, MatchResult};
ghost use Rattle.std.specs.Option.{option_map};
ghost use Rattle.elf_image.specs.Layout as layout;
ghost use Rattle.elf_image.specs.Image.{IsImage, IsReady};
ghost use Rattle.elf_image.specs.Faults.{Judges, image_fault};
ghost use Rattle.elf_image.specs.Contents as spec;

use crate::fault::ImageNo;
use crate::gaps::judge_gaps;
use crate::judge::{judge_header, judge_length, judge_place, judge_programs, judge_sections};
use crate::layout::{ADDRESS_BEHIND_OFFSET, MACHINE_PLACE, TEXT_OFFSET, layout_of, sizes_in};
use crate::outside::{address_at, count_in, first_outside, name_at, symbols_start};
use crate::rows::SYMBOL_SIZE;
use crate::symbol_table::{entry_in, judge_symbols, part_of};
use byteorder::{ByteOrder, LittleEndian};
use std::marker::Model;

#[tactic(auto, unfolding(crate::specs::Faults::image_fault))]
fn judge_in_order(bytes: &[u8]) -> Result<(), ImageNo>
    ensures { Judges result (image_fault bytes.now) }
{
    judge_header(bytes)?;
    let values_end = judge_programs(bytes)?;
    judge_place(bytes, values_end)?;
    judge_sections(bytes, values_end)?;
    judge_gaps(bytes)?;
    judge_symbols(bytes)?;
    judge_length(bytes)
}

/// Reads the whole image.
#[tactic(auto, using(crate::proofs::ImageLemmas::image_told, crate::proofs::ImageLemmas::image_none))]
fn judge(bytes: &[u8]) -> Result<(), ImageNo>
    ensures exact { Judges result (image_fault bytes.now) }
    ensures form { MatchResult result (λ _. IsImage bytes.now) (λ _. IsImage bytes.now → ⊥) }
{
    judge_in_order(bytes)?;
    Ok(())
}

/// An image that was read. Contracts see its bytes.
#[derive(Drop)]
pub struct Image<'a> {
    bytes: &'a [u8],
    // The number of the first symbol that lies outside.
    first_outside: u64,
}

impl<'a> Model for Image<'a> {
    ghost use Rattle.std.specs.Prelude.{ℕ, List};
    ghost use Rattle.elf_image.specs.Contents.{IsRead};

    ghost Value = { List ℕ };

    ghost view = { λ image. image.bytes.now };

    ghost invariant = { λ image. IsRead image.bytes.now image.first_outside };
}

/// Reads the image that the bytes are, and keeps the slice. It is refused exactly where the bytes are no image in the
/// profile, with their first fault in the order of reading (ELF-64 Object File Format).
#[tactic(auto, using(crate::proofs::ImageLemmas::image_told, crate::proofs::ImageLemmas::image_none, crate::proofs::StageLemmas::image_ready))]
pub fn view(bytes: &[u8]) -> Result<Image<'_>, ImageNo>
    ensures image { IfOk result (λ image. image ≡ bytes.now) }
    ensures form { MatchResult result (λ _. IsImage bytes.now) (λ _. IsImage bytes.now → ⊥) }
    ensures exact { Judges result (image_fault bytes.now) }
    ensures faultless { IsImage bytes.now ↔ (image_fault bytes.now ≡ None) }
{
    judge(bytes)?;
    Ok(Image {
        bytes,
        first_outside: first_outside(bytes),
    })
}

impl<'a> Image<'a> {
    /// ELF's number of the machine: 62 for amd64, 183 for arm64, 243 for riscv64.
    #[tactic(auto, unfolding(crate::specs::Rows::number_at))]
    pub fn machine(&self) -> u16
        ensures { result ≡ layout.machine_in self.now }
    {
        LittleEndian::read_u16(&self.ready()[MACHINE_PLACE..])
    }

    /// The address at which the program begins.
    pub fn entry(&self) -> u64
        ensures { result ≡ layout.entry_in self.now }
    {
        entry_in(self.ready())
    }

    /// The bytes of the functions.
    #[tactic(auto, using(crate::proofs::LayoutLemmas::ends_before))]
    pub fn text(&self) -> &'a [u8]
        ensures { result.now ≡ spec.text_in self.now }
    {
        let bytes = self.ready();
        part_of(bytes, TEXT_OFFSET, sizes_in(bytes).text)
    }

    /// The function table.
    #[tactic(auto, using(crate::proofs::LayoutLemmas::ends_before))]
    pub fn table(&self) -> &'a [u8]
        ensures { result.now ≡ spec.table_in self.now }
    {
        let bytes = self.ready();
        let sizes = sizes_in(bytes);
        part_of(bytes, layout_of(sizes).table, sizes.table)
    }

    /// The bytes of the values.
    #[tactic(auto, using(crate::proofs::LayoutLemmas::ends_before))]
    pub fn values(&self) -> &'a [u8]
        ensures { result.now ≡ spec.values_in self.now }
    {
        let bytes = self.ready();
        let sizes = sizes_in(bytes);
        part_of(bytes, layout_of(sizes).values, sizes.values)
    }

    /// The address of the first byte of the functions.
    pub fn text_at(&self) -> u64
        ensures { result ≡ spec.text_address }
    {
        TEXT_OFFSET + ADDRESS_BEHIND_OFFSET
    }

    /// The address of the first byte of the function table.
    #[tactic(auto, using(crate::proofs::LayoutLemmas::ends_before))]
    pub fn table_at(&self) -> u64
        ensures { result ≡ spec.table_address self.now }
    {
        layout_of(sizes_in(self.ready())).table + ADDRESS_BEHIND_OFFSET
    }

    /// The address of the first byte of the values.
    #[tactic(auto, using(crate::proofs::LayoutLemmas::ends_before))]
    pub fn values_at(&self) -> u64
        ensures { result ≡ spec.values_address self.now }
    {
        layout_of(sizes_in(self.ready())).values + ADDRESS_BEHIND_OFFSET
    }

    /// The name and the address of the symbol with this number among those that lie outside, from 0 in their order.
    /// `None` exactly past the last.
    #[tactic(auto, using(crate::proofs::OutsideLemmas::outside_get, crate::proofs::OutsideLemmas::outside_past, crate::proofs::StageLemmas::image_ready))]
    pub fn outside(&self, index: u32) -> Option<(&'a [u8], u64)>
        ensures { option_map (λ found. (found.0.now, found.1)) result ≡ slice_get (spec.outside_in self.now) index }
    {
        let bytes = self.bytes;
        let number = self.first_outside + u64::from(index);
        if count_in(bytes) <= number {
            return None;
        }
        let at = symbols_start(bytes) + SYMBOL_SIZE * number;
        Some((name_at(bytes, at), address_at(bytes, at)))
    }

    #[tactic(auto, using(crate::proofs::StageLemmas::image_ready))]
    fn ready(&self) -> &'a [u8]
        ensures bytes { result.now ≡ self.now }
        ensures ready { IsReady result.now }
    {
        self.bytes
    }
}
