// Headers as rows: one table serves the reader and the writer.
ghost use Rattle.std.specs.Prelude.{◌≡◌, ◌≤◌, ◌+◌, ◌++◌, nat_le, length, OnOk};
ghost use Rattle.std.specs.Option.{option_map};
ghost use Rattle.byteorder.specs.Endian.{little_bytes};
ghost use Rattle.elf_image.specs.Rows as spec;
ghost use Rattle.elf_image.specs.Rows.{number_at, rows_fault, rows_size, rows_bytes};

use crate::group::Group;
use byteorder::{ByteOrder, LittleEndian};
use std::alloc::AllocError;

pub const SYMBOL_SIZE: u64 = 24;

pub const LABELS_SIZE: u64 = 50;

/// The widths of ELF's fields: one, two, four or eight bytes.
#[derive(Clone, Copy)]
pub enum Width {
    Char,
    Half,
    Word,
    Xword,
}

/// Which numbers may stand in a field.
#[derive(Clone, Copy)]
pub enum Wanted {
    Any,
    Is(u64),
    /// A greater number than this one.
    Above(u64),
    /// The number of a machine that Goasm knows.
    Machine,
    /// An info byte of this group or a later one.
    InGroup(Group),
    /// The size of a part that begins at the first place and doesn't pass the second.
    Within(u64, u64),
    /// The same of a symbol table, which has at least one entry.
    Entries(u64, u64),
    /// The same of the names of the sections.
    Labels(u64, u64),
}

/// A field of a header.
#[derive(Clone, Copy)]
pub struct Row {
    pub width: Width,
    pub wanted: Wanted,
}

impl Width {
    /// In bytes.
    pub fn size(self) -> usize
        ensures { result ≡ spec.size_of self }
    {
        match self {
            Width::Char => 1,
            Width::Half => 2,
            Width::Word => 4,
            Width::Xword => 8,
        }
    }

    /// The number of a field at this place, the lowest byte first.
    #[tactic(auto, unfolding(crate::specs::Rows::number_at))]
    pub fn number_at(self, bytes: &[u8], at: usize) -> u64
        requires { at + spec.size_of self ≤ length bytes.now }
        ensures { result ≡ number_at bytes.now at self }
    {
        match self {
            Width::Char => u64::from(bytes[at]),
            Width::Half => u64::from(LittleEndian::read_u16(&bytes[at..])),
            Width::Word => u64::from(LittleEndian::read_u32(&bytes[at..])),
            Width::Xword => LittleEndian::read_u64(&bytes[at..]),
        }
    }

    /// Appends the lowest bytes of a number, as many as the field has.
    pub fn push(self, bytes: &mut Vec<u8>, number: u64) -> Result<(), AllocError>
        ensures { OnOk result (bytes.new.items ≡ bytes.old.items ++ little_bytes (spec.size_of self) number) }
    {
        let mut all = [0; 8];
        LittleEndian::write_u64(&mut all, number);
        bytes.extend_from_slice(&all[..self.size()])
    }
}

impl Wanted {
    /// Whether this number may stand there.
    pub fn allows(self, found: u64) -> bool
        ensures { result ≡ spec.meets self found }
    {
        match self {
            Wanted::Any => true,
            Wanted::Is(number) => found == number,
            Wanted::Above(number) => number < found,
            Wanted::Machine => matches!(found, 62 | 183 | 243),
            Wanted::InGroup(group) => reaches(group, found),
            Wanted::Within(from, to) => fits(from, found, to),
            Wanted::Entries(from, to) => {
                fits(from, found, to) && SYMBOL_SIZE <= found && found % SYMBOL_SIZE == 0
            }
            Wanted::Labels(from, to) => fits(from, found, to) && found == LABELS_SIZE,
        }
    }

    /// The number that is written where one number alone may stand.
    fn value(self) -> u64
        ensures { result ≡ spec.value_of self }
    {
        match self {
            Wanted::Is(number) => number,
            _ => 0,
        }
    }
}

fn reaches(group: Group, info: u64) -> bool
    ensures { result ≡ spec.meets (Wanted.InGroup group) info }
{
    match Group::of_info(info) {
        Some(found) => group.rank() <= found.rank(),
        None => false,
    }
}

// Whether a part of this size from the first place on ends at the second or before it.
fn fits(from: u64, size: u64, to: u64) -> bool
    ensures { result ≡ nat_le (from + size) to }
{
    from <= to && size <= to - from
}

pub fn char(wanted: Wanted) -> Row
    ensures { result ≡ spec.char wanted }
{
    Row {
        width: Width::Char,
        wanted,
    }
}

pub fn half(wanted: Wanted) -> Row
    ensures { result ≡ spec.half wanted }
{
    Row {
        width: Width::Half,
        wanted,
    }
}

pub fn word(wanted: Wanted) -> Row
    ensures { result ≡ spec.word wanted }
{
    Row {
        width: Width::Word,
        wanted,
    }
}

pub fn xword(wanted: Wanted) -> Row
    ensures { result ≡ spec.xword wanted }
{
    Row {
        width: Width::Xword,
        wanted,
    }
}

/// The place of the first field that has a number which may not stand there.
pub fn first_fault(bytes: &[u8], at: usize, rows: &[Row]) -> Option<u64>
    requires { at + rows_size rows.now ≤ length bytes.now }
    ensures { result ≡ rows_fault bytes.now at rows.now }
{
    let mut place = at;
    for row in rows {
        if !row.wanted.allows(row.width.number_at(bytes, place)) {
            return Some(place as u64);
        }
        place += row.width.size();
    }
    None
}

/// Appends the fields of rows in each of which one number alone may stand.
#[tactic(auto, unfolding(crate::specs::Rows::rows_bytes), using(byte_layout::proofs::PushedLemmas::pushed_none, byte_layout::proofs::PushedLemmas::pushed_next, byte_layout::proofs::PushedLemmas::pushed_all))]
pub fn push_rows(bytes: &mut Vec<u8>, rows: &[Row]) -> Result<(), AllocError>
    ensures { OnOk result (bytes.new.items ≡ bytes.old.items ++ rows_bytes rows.now) }
{
    for row in rows {
        row.width.push(bytes, row.wanted.value())?;
    }
    Ok(())
}
