ghost use Rattle.std.specs.Prelude.{◌≡◌, ◌+◌, ◌^◌, ◌<◌, ◌++◌, [], ◌∷◌, IfOk, OnOk};
ghost use Rattle.byte_layout.specs.Joined.{joined};
ghost use Rattle.elf_image.specs.Rows.{rows_bytes};
ghost use Rattle.elf_image.specs.Headers.{section_rows};
ghost use Rattle.elf_image.specs.Layout as places;
ghost use Rattle.elf_image.specs.Image.{IsImage};
ghost use Rattle.elf_image.specs.Written as spec;
ghost use Rattle.elf_image.specs.Written.{AreParts, image_bytes};
ghost use Rattle.elf_image.specs.Contents.{Tells};

use crate::headers::{
    Section, header_rows, ident_rows, labels_section, null_section, program_rows, strings_section,
    symbols_section, table_section, text_section, values_section,
};
use crate::layout::{Layout, PAGE, Sizes, TEXT_OFFSET, labels, layout_of};
use crate::parts::ImageParts;
use crate::rows::Wanted::Is;
use crate::rows::{LABELS_SIZE, push_rows};
use crate::write_symbols::{locals_of, string_bytes, symbol_bytes};
use byte_layout::push_part;
use goasm_base::{Bytes, Memory};
use std::alloc::{AllocError, Global};

/// Writes the image of these parts: exactly the bytes that the profile gives them, which `view` reads back.
#[tactic(auto, using(crate::proofs::WriteLemmas::parts_near))]
pub fn write(alloc: Global, parts: &ImageParts) -> Result<Bytes, Memory>
    requires { AreParts parts.now }
    ensures bytes { IfOk result (λ bytes. bytes ≡ image_bytes parts.now) }
    ensures image { IfOk result (λ bytes. IsImage bytes) }
    ensures tells { IfOk result (λ bytes. Tells parts.now bytes) }
{
    let bytes = write_image(alloc, parts)?;
    Ok(Bytes::new(bytes))
}

#[tactic(auto, unfolding(crate::specs::Written::image_bytes), using(crate::proofs::LayoutLemmas::ends_before))]
fn write_image(alloc: Global, parts: &ImageParts) -> Result<Vec<u8>, Memory>
    requires { places.sections_offset (spec.sizes_of parts.now) < 2 ^ 63 }
    ensures { IfOk result (λ bytes. bytes.items ≡ image_bytes parts.now) }
{
    let symbols = symbol_bytes(alloc, parts.symbols.as_slice())?;
    let strings = string_bytes(alloc, parts.symbols.as_slice())?;
    let sizes = sizes_of(parts, &symbols, &strings);
    let layout = layout_of(sizes);
    let mut bytes = front(alloc, parts.machine, parts.entry, sizes, layout)?;
    push_loaded(&mut bytes, parts)?;
    let locals = locals_of(parts.symbols.as_slice());
    let sections = section_table(alloc, sizes, layout, locals)?;
    push_described(&mut bytes, &symbols, &strings, &sections)?;
    Ok(bytes)
}

fn sizes_of(parts: &ImageParts, symbols: &[u8], strings: &[u8]) -> Sizes
    requires symbols { symbols.now ≡ spec.symbol_bytes parts.now.symbols }
    requires strings { strings.now ≡ spec.string_bytes parts.now.symbols }
    ensures { result ≡ spec.sizes_of parts.now }
{
    Sizes {
        text: parts.text.as_slice().len() as u64,
        table: parts.table.as_slice().len() as u64,
        values: parts.values.as_slice().len() as u64,
        symbols: symbols.len() as u64,
        strings: strings.len() as u64,
    }
}

// The parts that are loaded.
#[tactic(auto, unfolding(byte_layout::specs::Joined::joined))]
fn push_loaded(bytes: &mut Vec<u8>, parts: &ImageParts) -> Result<(), AllocError>
    ensures { OnOk result (bytes.new.items ≡ joined 4096 bytes.old.items (parts.now.text ∷ parts.now.table ∷ parts.now.values ∷ [])) }
{
    push_part(bytes, PAGE as usize, parts.text.as_slice())?;
    push_part(bytes, PAGE as usize, parts.table.as_slice())?;
    push_part(bytes, PAGE as usize, parts.values.as_slice())?;
    Ok(())
}

// What describes them.
fn push_described(
    bytes: &mut Vec<u8>,
    symbols: &[u8],
    strings: &[u8],
    sections: &[u8],
) -> Result<(), AllocError>
    ensures { OnOk result (bytes.new.items ≡ joined 8 bytes.old.items (symbols.now ∷ strings.now ∷ places.labels ∷ sections.now ∷ [])) }
{
    push_part(bytes, 8, symbols)?;
    push_part(bytes, 8, strings)?;
    push_part(bytes, 8, labels())?;
    push_part(bytes, 8, sections)?;
    Ok(())
}

// The header and the program headers.
#[tactic(auto, using(crate::proofs::LayoutLemmas::ends_before))]
fn front(
    alloc: Global,
    machine: u16,
    entry: u64,
    sizes: Sizes,
    layout: Layout,
) -> Result<Vec<u8>, AllocError>
    requires layout { layout ≡ places.layout_of sizes }
    requires near { places.sections_offset sizes < 2 ^ 63 }
    ensures { IfOk result (λ bytes. bytes.items ≡ rows_bytes (spec.front_table machine entry sizes)) }
{
    let header = header_rows(Is(u64::from(machine)), Is(entry), Is(layout.sections));
    let text = program_rows(5, TEXT_OFFSET, Is(sizes.text), Is(sizes.text));
    let table = program_rows(4, layout.table, Is(sizes.table), Is(sizes.table));
    let values = program_rows(6, layout.values, Is(sizes.values), Is(sizes.values));
    let mut bytes = Vec::new(alloc);
    push_rows(&mut bytes, &ident_rows())?;
    push_rows(&mut bytes, &header)?;
    push_rows(&mut bytes, &text)?;
    push_rows(&mut bytes, &table)?;
    push_rows(&mut bytes, &values)?;
    Ok(bytes)
}

// The section headers.
#[tactic(auto, using(crate::proofs::LayoutLemmas::ends_before))]
fn section_table(
    alloc: Global,
    sizes: Sizes,
    layout: Layout,
    locals: u64,
) -> Result<Vec<u8>, AllocError>
    requires layout { layout ≡ places.layout_of sizes }
    requires near { places.sections_offset sizes < 2 ^ 63 }
    ensures { IfOk result (λ bytes. bytes.items ≡ rows_bytes (spec.section_table sizes locals)) }
{
    let text = text_section(TEXT_OFFSET, sizes.text);
    let table = table_section(layout.table, sizes.table);
    let values = values_section(layout.values, sizes.values);
    let symbols = symbols_section(layout.symbols, Is(sizes.symbols), Is(locals));
    let strings = strings_section(layout.strings, Is(sizes.strings));
    let labels = labels_section(layout.labels, Is(LABELS_SIZE));
    let mut bytes = Vec::new(alloc);
    push_section(&mut bytes, &null_section())?;
    push_section(&mut bytes, &text)?;
    push_section(&mut bytes, &table)?;
    push_section(&mut bytes, &values)?;
    push_section(&mut bytes, &symbols)?;
    push_section(&mut bytes, &strings)?;
    push_section(&mut bytes, &labels)?;
    Ok(bytes)
}

fn push_section(bytes: &mut Vec<u8>, section: &Section) -> Result<(), AllocError>
    ensures { OnOk result (bytes.new.items ≡ bytes.old.items ++ rows_bytes (section_rows section.now)) }
{
    push_rows(bytes, &section.rows())
}
