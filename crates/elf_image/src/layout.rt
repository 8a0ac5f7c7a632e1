ghost use Rattle.std.specs.Prelude.{◌≡◌, ◌+◌, ◌^◌, ◌<◌, ◌≤◌, length};
ghost use Rattle.byte_layout.specs.Joined as joined;
ghost use Rattle.elf_image.specs.Layout as spec;
ghost use Rattle.elf_image.specs.Layout.{sections_in, sections_size, headers_size, image_length};

use crate::rows::Width;

pub const HEADER_SIZE: usize = 64;

/// The header and the three program headers.
pub const HEADERS_SIZE: usize = 232;

pub const SECTIONS_SIZE: u64 = 448;

/// A page: the loaded parts begin at multiples of it.
pub const PAGE: u64 = 4096;

pub const TEXT_OFFSET: u64 = 4096;

/// What the address of a loaded part has more than its place.
pub const ADDRESS_BEHIND_OFFSET: u64 = 0x3F_F000;

pub const MACHINE_PLACE: usize = 18;

pub const ENTRY_PLACE: u64 = 24;

pub const SECTIONS_PLACE: u64 = 40;

/// Where the program headers begin.
pub const TEXT_HEADER: usize = 64;

pub const TABLE_HEADER: usize = 120;

pub const VALUES_HEADER: usize = 176;

/// The names of the sections, each behind a zero byte.
pub const LABELS: &[u8] = b"\0.text\0.gopclntab\0.data\0.symtab\0.strtab\0.shstrtab\0";

/// The same bytes, by their definition.
#[tactic(auto, unfolding(crate::specs::Layout::labels))]
pub fn labels() -> &'static [u8]
    ensures { result.now ≡ spec.labels }
{
    LABELS
}

/// The sizes of an image's parts in bytes.
#[derive(Clone, Copy)]
pub struct Sizes {
    /// Of the bytes of the functions.
    pub text: u64,
    /// Of the function table.
    pub table: u64,
    /// Of the bytes of the values.
    pub values: u64,
    /// Of the symbol table: 24 for each symbol, and 24 for the null symbol before them (ELF-64 Object File Format, "Symbol
    /// table").
    pub symbols: u64,
    /// Of the symbols' names: a zero byte, and then each name with the zero byte that ends it.
    pub strings: u64,
}

/// Where the parts behind the text begin, in bytes from the image's first.
#[derive(Clone, Copy)]
pub struct Layout {
    pub table: u64,
    pub values: u64,
    pub symbols: u64,
    pub strings: u64,
    /// The names of the sections, and the section headers.
    pub labels: u64,
    pub sections: u64,
}

/// The next multiple of a unit from a place on.
#[tactic(auto, unfolding(byte_layout::specs::Joined::aligned))]
pub fn aligned(unit: u64, at: u64) -> u64
    requires some { 0 < unit }
    requires room { at + unit < 2 ^ 64 }
    ensures value { result ≡ joined.aligned unit at }
    ensures from { at ≤ result }
    ensures near { result < at + unit }
{
    at.next_multiple_of(unit)
}

/// Where parts of these sizes stand.
#[tactic(auto, using(crate::proofs::LayoutLemmas::ends_before))]
pub fn layout_of(sizes: Sizes) -> Layout
    requires { spec.sections_offset sizes < 2 ^ 63 }
    ensures { result ≡ spec.layout_of sizes }
{
    let table = aligned(PAGE, TEXT_OFFSET + sizes.text);
    let values = aligned(PAGE, table + sizes.table);
    let symbols = aligned(8, values + sizes.values);
    let strings = aligned(8, symbols + sizes.symbols);
    let labels = aligned(8, strings + sizes.strings);
    let sections = aligned(8, labels + LABELS.len() as u64);
    Layout {
        table,
        values,
        symbols,
        strings,
        labels,
        sections,
    }
}

/// How many bytes an image has whose parts have these sizes, with the headers and the zeros between the parts. `write`
/// takes parts whose image is shorter than 2^32 bytes.
#[tactic(auto, using(crate::proofs::LayoutLemmas::sections_near))]
pub fn image_size(sizes: Sizes) -> u64
    requires text { sizes.text < 2 ^ 32 }
    requires table { sizes.table < 2 ^ 32 }
    requires values { sizes.values < 2 ^ 32 }
    requires symbols { sizes.symbols < 2 ^ 32 }
    requires strings { sizes.strings < 2 ^ 32 }
    ensures { result ≡ image_length sizes }
{
    layout_of(sizes).sections + SECTIONS_SIZE
}

/// Where the section headers begin, as the header says.
pub fn sections_in(bytes: &[u8]) -> u64
    requires { spec.header_size ≤ length bytes.now }
    ensures { result ≡ spec.sections_in bytes.now }
{
    Width::Xword.number_at(bytes, SECTIONS_PLACE as usize)
}

/// The size in a program header.
pub fn program_size(bytes: &[u8], at: usize) -> u64
    requires { at + 56 ≤ length bytes.now }
    ensures { result ≡ spec.program_size bytes.now at }
{
    Width::Xword.number_at(bytes, at + 32)
}

/// Where the section header with this number stands, from 0 to 6.
pub fn section_at(bytes: &[u8], index: u64) -> usize
    requires within { sections_in bytes.now + sections_size ≤ length bytes.now }
    requires long { spec.header_size ≤ length bytes.now }
    requires index { index < 7 }
    ensures { result ≡ spec.section_at bytes.now index }
{
    (sections_in(bytes) + 64 * index) as usize
}

/// The size in the section header with this number.
pub fn section_size(bytes: &[u8], index: u64) -> u64
    requires within { sections_in bytes.now + sections_size ≤ length bytes.now }
    requires index { index < 7 }
    ensures { result ≡ spec.section_size bytes.now (spec.section_at bytes.now index) }
{
    Width::Xword.number_at(bytes, section_at(bytes, index) + 32)
}

/// The sizes that the headers say.
pub fn sizes_in(bytes: &[u8]) -> Sizes
    requires { sections_in bytes.now + sections_size ≤ length bytes.now }
    ensures { result ≡ spec.sizes_in bytes.now }
{
    Sizes {
        text: program_size(bytes, TEXT_HEADER),
        table: program_size(bytes, TABLE_HEADER),
        values: program_size(bytes, VALUES_HEADER),
        symbols: section_size(bytes, 4),
        strings: section_size(bytes, 5),
    }
}
