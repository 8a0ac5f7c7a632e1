// What lies between the parts of an image.
ghost use Rattle.std.specs.Prelude.{◌≡◌, ◌+◌, ◌≤◌, length};
ghost use Rattle.elf_image.specs.Rows.{rows_fault, byte_rows};
ghost use Rattle.elf_image.specs.Layout as spec;
ghost use Rattle.elf_image.specs.Image.{IsReady};
ghost use Rattle.elf_image.specs.Faults.{Judges, layout_at, zeros_fault, labels_fault, gaps_fault};

use crate::fault::ImageNo::{self, I2};
use crate::layout::{HEADERS_SIZE, LABELS, TEXT_OFFSET, layout_of, sizes_in};
use crate::rows::Width;

#[tactic(auto, unfolding(crate::specs::Faults::zeros_fault), using(crate::proofs::GapLemmas::zero_next, crate::proofs::GapLemmas::zero_other, crate::proofs::GapLemmas::zero_none))]
fn judge_zeros(bytes: &[u8], from: u64, to: u64) -> Result<(), ImageNo>
    requires { to ≤ length bytes.now }
    ensures { Judges result (zeros_fault bytes.now from to) }
{
    for at in from..to {
        if Width::Char.number_at(bytes, at as usize) != 0 {
            return Err(I2(at));
        }
    }
    Ok(())
}

#[tactic(auto, using(crate::proofs::GapLemmas::byte_next, crate::proofs::GapLemmas::byte_other, crate::proofs::GapLemmas::byte_none))]
fn judge_bytes(bytes: &[u8], at: u64, wanted: &[u8]) -> Result<(), ImageNo>
    requires { at + length wanted.now ≤ length bytes.now }
    ensures { Judges result (layout_at (rows_fault bytes.now at (byte_rows wanted.now))) }
{
    for index in 0..wanted.len() {
        let place = at as usize + index;
        if Width::Char.number_at(bytes, place) != u64::from(wanted[index]) {
            return Err(I2(place as u64));
        }
    }
    Ok(())
}

#[tactic(auto, unfolding(crate::specs::Faults::labels_fault, crate::specs::Layout::labels))]
fn judge_labels(bytes: &[u8], at: u64) -> Result<(), ImageNo>
    requires { at + 50 ≤ length bytes.now }
    ensures { Judges result (labels_fault bytes.now at) }
{
    judge_bytes(bytes, at, LABELS)
}

/// Refuses the first byte between the parts that isn't zero, and the first of the names of the sections that isn't the
/// given one, whichever comes first.
#[tactic(auto, unfolding(crate::specs::Faults::gaps_fault), using(crate::proofs::LayoutLemmas::ends_before))]
pub fn judge_gaps(bytes: &[u8]) -> Result<(), ImageNo>
    requires { IsReady bytes.now }
    ensures { Judges result (gaps_fault bytes.now) }
{
    let sizes = sizes_in(bytes);
    let layout = layout_of(sizes);
    judge_zeros(bytes, HEADERS_SIZE as u64, TEXT_OFFSET)?;
    judge_zeros(bytes, TEXT_OFFSET + sizes.text, layout.table)?;
    judge_zeros(bytes, layout.table + sizes.table, layout.values)?;
    judge_zeros(bytes, layout.values + sizes.values, layout.symbols)?;
    judge_zeros(bytes, layout.symbols + sizes.symbols, layout.strings)?;
    judge_zeros(bytes, layout.strings + sizes.strings, layout.labels)?;
    judge_labels(bytes, layout.labels)?;
    judge_zeros(bytes, layout.labels + LABELS.len() as u64, layout.sections)
}
