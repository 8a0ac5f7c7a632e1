// The fields of the headers, in their order (ELF-64 Object File Format, "ELF header", "Sections" and "Segments").
ghost use Rattle.std.specs.Prelude.{◌≡◌, ◌+◌, ◌^◌, ◌<◌};
ghost use Rattle.elf_image.specs.Headers as spec;

use crate::layout::{ADDRESS_BEHIND_OFFSET, PAGE};
use crate::rows::Wanted::{self, Is};
use crate::rows::{Row, half, word, xword};

/// The first eight bytes: the magic number, 64 bits, the lowest byte first, version 1, System V.
const IDENT: u64 = 0x0001_0102_464C_457F;

/// A section header.
#[derive(Clone, Copy)]
pub struct Section {
    /// The place of its name among the names of the sections.
    pub name: u64,
    pub kind: u64,
    pub flags: u64,
    pub address: u64,
    pub offset: u64,
    pub size: Wanted,
    pub link: u64,
    pub info: Wanted,
    pub align: u64,
    pub entry_size: u64,
}

pub fn ident_rows() -> [Row; 2]
    ensures { result ≡ spec.ident_rows }
{
    [xword(Is(IDENT)), xword(Is(0))]
}

pub fn header_rows(machine: Wanted, entry: Wanted, sections: Wanted) -> [Row; 13]
    ensures { result ≡ spec.header_rows machine entry sections }
{
    [
        half(Is(2)),
        half(machine),
        word(Is(1)),
        xword(entry),
        xword(Is(64)),
        xword(sections),
        word(Is(0)),
        half(Is(64)),
        half(Is(56)),
        half(Is(3)),
        half(Is(64)),
        half(Is(7)),
        half(Is(6)),
    ]
}

pub fn program_rows(flags: u64, offset: u64, file_size: Wanted, memory_size: Wanted) -> [Row; 8]
    requires { offset < 2 ^ 63 + 2 ^ 13 }
    ensures { result ≡ spec.program_rows flags offset file_size memory_size }
{
    let address = offset + ADDRESS_BEHIND_OFFSET;
    [
        word(Is(1)),
        word(Is(flags)),
        xword(Is(offset)),
        xword(Is(address)),
        xword(Is(address)),
        xword(file_size),
        xword(memory_size),
        xword(Is(PAGE)),
    ]
}

impl Section {
    pub fn rows(&self) -> [Row; 10]
        ensures { result ≡ spec.section_rows self.now }
    {
        [
            word(Is(self.name)),
            word(Is(self.kind)),
            xword(Is(self.flags)),
            xword(Is(self.address)),
            xword(Is(self.offset)),
            xword(self.size),
            word(Is(self.link)),
            word(self.info),
            xword(Is(self.align)),
            xword(Is(self.entry_size)),
        ]
    }
}

pub fn null_section() -> Section
    ensures { result ≡ spec.null_section }
{
    Section {
        name: 0,
        kind: 0,
        flags: 0,
        address: 0,
        offset: 0,
        size: Is(0),
        link: 0,
        info: Is(0),
        align: 0,
        entry_size: 0,
    }
}

// A part that is loaded.
fn loaded_section(name: u64, flags: u64, offset: u64, size: u64, align: u64) -> Section
    requires { offset < 2 ^ 63 + 2 ^ 13 }
    ensures { result ≡ spec.loaded_section name flags offset size align }
{
    Section {
        name,
        kind: 1,
        flags,
        address: offset + ADDRESS_BEHIND_OFFSET,
        offset,
        size: Is(size),
        link: 0,
        info: Is(0),
        align,
        entry_size: 0,
    }
}

pub fn text_section(offset: u64, size: u64) -> Section
    requires { offset < 2 ^ 63 + 2 ^ 13 }
    ensures { result ≡ spec.text_section offset size }
{
    loaded_section(1, 6, offset, size, 16)
}

pub fn table_section(offset: u64, size: u64) -> Section
    requires { offset < 2 ^ 63 + 2 ^ 13 }
    ensures { result ≡ spec.table_section offset size }
{
    loaded_section(7, 2, offset, size, 8)
}

pub fn values_section(offset: u64, size: u64) -> Section
    requires { offset < 2 ^ 63 + 2 ^ 13 }
    ensures { result ≡ spec.values_section offset size }
{
    loaded_section(18, 3, offset, size, 16)
}

pub fn symbols_section(offset: u64, size: Wanted, info: Wanted) -> Section
    ensures { result ≡ spec.symbols_section offset size info }
{
    Section {
        name: 24,
        kind: 2,
        flags: 0,
        address: 0,
        offset,
        size,
        link: 5,
        info,
        align: 8,
        entry_size: 24,
    }
}

// Names.
fn names_section(name: u64, offset: u64, size: Wanted) -> Section
    ensures { result ≡ spec.names_section name offset size }
{
    Section {
        name,
        kind: 3,
        flags: 0,
        address: 0,
        offset,
        size,
        link: 0,
        info: Is(0),
        align: 1,
        entry_size: 0,
    }
}

pub fn strings_section(offset: u64, size: Wanted) -> Section
    ensures { result ≡ spec.strings_section offset size }
{
    names_section(32, offset, size)
}

pub fn labels_section(offset: u64, size: Wanted) -> Section
    ensures { result ≡ spec.labels_section offset size }
{
    names_section(40, offset, size)
}
