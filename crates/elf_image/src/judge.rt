// The steps by which an image is read, in their order. Each is refused with the first fault of its part.
ghost use Rattle.std.specs.Prelude.{◌≡◌, ◌+◌, ◌^◌, ◌<◌, ◌≤◌, length, IsTrue, OnOk, IfOk};
ghost use Rattle.elf_image.specs.Rows.{meets};
ghost use Rattle.elf_image.specs.Layout as spec;
ghost use Rattle.elf_image.specs.Layout.{header_size, headers_size, sections_size};
ghost use Rattle.elf_image.specs.Image.{HasSectionsPlace, IsReady};
ghost use Rattle.elf_image.specs.Faults.{Judges, header_at, layout_at, header_fault, program_fault, programs_fault, place_fault, section_fault, loaded_fault, described_fault, sections_fault, length_fault};

use crate::fault::ImageNo::{self, I1, I2, I4};
use crate::headers::{
    Section, header_rows, ident_rows, labels_section, null_section, program_rows, strings_section,
    symbols_section, table_section, text_section, values_section,
};
use crate::layout::{
    HEADER_SIZE, HEADERS_SIZE, LABELS, PAGE, SECTIONS_PLACE, SECTIONS_SIZE, TABLE_HEADER,
    TEXT_HEADER, TEXT_OFFSET, VALUES_HEADER, aligned, program_size, section_at, sections_in,
    sizes_in,
};
use crate::rows::Wanted::{Any, Entries, Is, Labels, Machine, Within};
use crate::rows::first_fault;

fn in_header(place: Option<u64>) -> Result<(), ImageNo>
    ensures { Judges result (header_at place) }
{
    match place {
        Some(at) => Err(I1(at)),
        None => Ok(()),
    }
}

/// Refuses the layout at this place, if there is one.
pub fn in_layout(place: Option<u64>) -> Result<(), ImageNo>
    ensures { Judges result (layout_at place) }
{
    match place {
        Some(at) => Err(I2(at)),
        None => Ok(()),
    }
}

#[tactic(auto, unfolding(crate::specs::Faults::header_fault))]
pub fn judge_header(bytes: &[u8]) -> Result<(), ImageNo>
    ensures exact { Judges result (header_fault bytes.now) }
    ensures long { OnOk result (header_size ≤ length bytes.now) }
{
    if bytes.len() < HEADER_SIZE {
        return Err(I1(bytes.len() as u64));
    }
    if first_fault(bytes, 0, &ident_rows()).is_some() {
        return Err(I1(0));
    }
    in_header(first_fault(bytes, 16, &header_rows(Machine, Any, Any)))?;
    Ok(())
}

#[tactic(auto, unfolding(crate::specs::Faults::program_fault))]
fn judge_program_rows(bytes: &[u8], at: usize, flags: u64, offset: u64) -> Result<u64, ImageNo>
    requires long { at + 56 ≤ length bytes.now }
    requires near { offset < 2 ^ 63 + 2 ^ 13 }
    ensures exact { Judges result (program_fault bytes.now at flags offset) }
    ensures size { IfOk result (λ size. size ≡ spec.program_size bytes.now at) }
{
    let size = program_size(bytes, at);
    let rows = program_rows(flags, offset, Within(offset, bytes.len() as u64), Is(size));
    in_layout(first_fault(bytes, at, &rows))?;
    Ok(size)
}

// The end of the part.
#[tactic(auto, using(crate::proofs::StageLemmas::program_sized))]
fn judge_program(bytes: &[u8], at: usize, flags: u64, offset: u64) -> Result<u64, ImageNo>
    requires long { at + 56 ≤ length bytes.now }
    requires near { offset < 2 ^ 63 + 2 ^ 13 }
    ensures exact { Judges result (program_fault bytes.now at flags offset) }
    ensures end { IfOk result (λ end. end ≡ offset + spec.program_size bytes.now at) }
    ensures within { IfOk result (λ end. end ≤ length bytes.now) }
{
    let size = judge_program_rows(bytes, at, flags, offset)?;
    Ok(offset + size)
}

/// The end of the values.
#[tactic(auto, unfolding(crate::specs::Faults::programs_fault))]
pub fn judge_programs(bytes: &[u8]) -> Result<u64, ImageNo>
    ensures exact { Judges result (programs_fault bytes.now) }
    ensures long { OnOk result (headers_size ≤ length bytes.now) }
    ensures end { IfOk result (λ end. end ≡ spec.values_end (spec.sizes_in bytes.now)) }
    ensures within { IfOk result (λ end. end ≤ length bytes.now) }
{
    if bytes.len() < HEADERS_SIZE {
        return Err(I2(bytes.len() as u64));
    }
    let text = judge_program(bytes, TEXT_HEADER, 5, TEXT_OFFSET)?;
    let table = judge_program(bytes, TABLE_HEADER, 4, aligned(PAGE, text))?;
    let values = judge_program(bytes, VALUES_HEADER, 6, aligned(PAGE, table))?;
    Ok(values)
}

#[tactic(auto, unfolding(crate::specs::Faults::place_fault))]
pub fn judge_place(bytes: &[u8], values_end: u64) -> Result<(), ImageNo>
    requires long { headers_size ≤ length bytes.now }
    requires end { values_end ≡ spec.values_end (spec.sizes_in bytes.now) }
    ensures exact { Judges result (place_fault bytes.now) }
    ensures place { OnOk result (HasSectionsPlace bytes.now) }
{
    let sections = sections_in(bytes);
    let length = bytes.len() as u64;
    if sections % 8 != 0 || sections < values_end {
        return Err(I2(SECTIONS_PLACE));
    }
    if length < SECTIONS_SIZE || length - SECTIONS_SIZE < sections {
        return Err(I2(SECTIONS_PLACE));
    }
    Ok(())
}

#[tactic(auto, unfolding(crate::specs::Faults::section_fault))]
fn judge_section_rows(bytes: &[u8], at: usize, section: &Section) -> Result<(), ImageNo>
    requires { at + 64 ≤ length bytes.now }
    ensures { Judges result (section_fault bytes.now at section.now) }
{
    in_layout(first_fault(bytes, at, &section.rows()))
}

#[tactic(auto, using(crate::proofs::StageLemmas::section_sized))]
fn judge_section(bytes: &[u8], index: u64, section: &Section) -> Result<(), ImageNo>
    requires within { spec.sections_in bytes.now + sections_size ≤ length bytes.now }
    requires index { index < 7 }
    ensures exact { Judges result (section_fault bytes.now (spec.section_at bytes.now index) section.now) }
    ensures sized { OnOk result (IsTrue (meets section.now.size (spec.section_size bytes.now (spec.section_at bytes.now index)))) }
{
    judge_section_rows(bytes, section_at(bytes, index), section)?;
    Ok(())
}

#[tactic(auto, unfolding(crate::specs::Faults::loaded_fault), using(crate::proofs::LayoutLemmas::loaded_before))]
fn judge_loaded(bytes: &[u8]) -> Result<(), ImageNo>
    requires { HasSectionsPlace bytes.now }
    ensures { Judges result (loaded_fault bytes.now) }
{
    let sizes = sizes_in(bytes);
    judge_section(bytes, 0, &null_section())?;
    judge_section(bytes, 1, &text_section(TEXT_OFFSET, sizes.text))?;
    let table = aligned(PAGE, TEXT_OFFSET + sizes.text);
    judge_section(bytes, 2, &table_section(table, sizes.table))?;
    let values = aligned(PAGE, table + sizes.table);
    judge_section(bytes, 3, &values_section(values, sizes.values))?;
    Ok(())
}

// The end of the names of the sections.
#[tactic(auto, unfolding(crate::specs::Faults::described_fault))]
fn judge_described(bytes: &[u8], values_end: u64) -> Result<u64, ImageNo>
    requires place { HasSectionsPlace bytes.now }
    requires end { values_end ≡ spec.values_end (spec.sizes_in bytes.now) }
    ensures exact { Judges result (described_fault bytes.now) }
    ensures end { IfOk result (λ end. end ≡ spec.labels_end (spec.sizes_in bytes.now)) }
    ensures within { IfOk result (λ end. end ≤ length bytes.now) }
    ensures symbols { OnOk result (24 ≤ (spec.sizes_in bytes.now).symbols) }
{
    let to = sections_in(bytes);
    let sizes = sizes_in(bytes);
    let symbols = aligned(8, values_end);
    judge_section(
        bytes,
        4,
        &symbols_section(symbols, Entries(symbols, to), Any),
    )?;
    let strings = aligned(8, symbols + sizes.symbols);
    judge_section(bytes, 5, &strings_section(strings, Within(strings, to)))?;
    let labels = aligned(8, strings + sizes.strings);
    judge_section(bytes, 6, &labels_section(labels, Labels(labels, to)))?;
    Ok(labels + LABELS.len() as u64)
}

#[tactic(auto, unfolding(crate::specs::Faults::sections_fault))]
pub fn judge_sections(bytes: &[u8], values_end: u64) -> Result<(), ImageNo>
    requires place { HasSectionsPlace bytes.now }
    requires end { values_end ≡ spec.values_end (spec.sizes_in bytes.now) }
    ensures exact { Judges result (sections_fault bytes.now) }
    ensures ready { OnOk result (IsReady bytes.now) }
{
    judge_loaded(bytes)?;
    let labels_end = judge_described(bytes, values_end)?;
    if sections_in(bytes) != aligned(8, labels_end) {
        return Err(I2(SECTIONS_PLACE));
    }
    Ok(())
}

#[tactic(auto, unfolding(crate::specs::Faults::length_fault))]
pub fn judge_length(bytes: &[u8]) -> Result<(), ImageNo>
    requires { spec.sections_in bytes.now + sections_size ≤ length bytes.now }
    ensures { Judges result (length_fault bytes.now) }
{
    let end = sections_in(bytes) + SECTIONS_SIZE;
    if end < bytes.len() as u64 {
        return Err(I4(end));
    }
    Ok(())
}
