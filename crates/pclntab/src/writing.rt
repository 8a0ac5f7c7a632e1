ghost use Rattle.std.specs.Prelude.{◌≡◌, ◌^◌, ◌<◌, ◌≤◌, ◌+◌, ◌*◌, ◌-◌, [], ◌∷◌, ◌++◌, length, vec_len, All, IfOk, OnOk};
ghost use Rattle.std.specs.List.{flat_map};
ghost use Rattle.std.specs.Int.{w32, cast_unsigned};
ghost use Rattle.byteorder.specs.Endian.{little_bytes};
ghost use Rattle.byte_layout.specs.Joined.{aligned, places, joined};
ghost use Rattle.pclntab.specs.Places.{header_size};
ghost use Rattle.pclntab.specs.Table.{IsTable};
ghost use Rattle.pclntab.specs.Written as spec;
ghost use Rattle.pclntab.specs.Written.{text_bytes, texts, starts, words, tables_of, longs, all_kept, kept_of, stored, rows, record_bytes, records, pairs, first_record, funcs_bytes, names_of, tables, header_over, written_over, written};
ghost use Rattle.pclntab.specs.Parts.{AreParts, IsFuncPart, Tells, TellsAll};
ghost use Rattle.pclntab.specs.Stock.{IsStock, tables_in};
ghost use Rattle.pclntab.specs.Writing.{FitWords, HasRuns, five_of};

use crate::funcs::write_funcs;
use crate::parts::TableParts;
use crate::places::{HEADER_SIZE, MAGIC};
use byte_layout::{push_part, push_u32, push_u64};
use goasm_base::{Bytes, Memory, Name};
use std::alloc::Global;

/// The table of these parts in the Go 1.20 form, as Go's linker lays one out (`cmd/link/internal/ld/pcln.go`): the header,
/// then names, units' files, file names, pc-value tables and functions, each at the next multiple of 8. Equal pc-value
/// tables stand once, at their first place. Names and files stand as they are given. It is refused for want of memory alone.
pub fn write(alloc: Global, parts: &TableParts) -> Result<Bytes, Memory>
    requires { AreParts parts.now }
    ensures bytes { IfOk result (λ bytes. bytes ≡ written parts.now) }

    // `Table::read` takes it, and gives the parts back.
    ensures table { IfOk result (λ bytes. IsTable bytes) }
    ensures tells { IfOk result (λ bytes. Tells parts.now bytes) }
    ensures all { IfOk result (λ bytes. TellsAll parts.now bytes) }
{
    let bytes = write_bytes(alloc, parts)?;
    Ok(Bytes::new(bytes))
}

// The tables behind the header.
#[derive(Clone, Copy)]
pub struct Subtables<'a> {
    pub names: &'a [u8],
    pub units: &'a [u8],
    pub files: &'a [u8],
    pub pcs: &'a [u8],
    pub funcs: &'a [u8],
}

#[tactic(auto, using(crate::proofs::LengthLemmas::words_fit, crate::proofs::LengthLemmas::runs_are))]
fn write_bytes(alloc: Global, parts: &TableParts) -> Result<Vec<u8>, Memory>
    requires { AreParts parts.now }
    ensures { IfOk result (λ bytes. bytes.items ≡ written parts.now) }
{
    let mut funcs = write_funcs(alloc, parts)?;
    let files = write_files(alloc, parts.files.as_slice())?;
    push_u32(&mut funcs.pairs, parts.text_len)?;
    funcs.pairs.extend_from_slice(funcs.records.as_slice())?;
    let five = Subtables {
        names: funcs.names.as_slice(),
        units: files.units.as_slice(),
        files: files.names.as_slice(),
        pcs: funcs.stock.bytes.as_slice(),
        funcs: funcs.pairs.as_slice(),
    };
    let bytes = join(alloc, parts, &five)?;
    Ok(bytes)
}

// The header and the tables, each at the next multiple of 8.
#[tactic(auto, unfolding(crate::specs::Written::written_over, byte_layout::specs::Joined::joined))]
fn join(alloc: Global, parts: &TableParts, five: &Subtables<'_>) -> Result<Vec<u8>, Memory>
    requires { length five.now.names.now + length five.now.units.now + length five.now.files.now + length five.now.pcs.now + length five.now.funcs.now < 2 ^ 32 }
    ensures { IfOk result (λ bytes. bytes.items ≡ written_over parts.now (five_of five.now)) }
{
    let mut bytes = Vec::new(alloc);
    push_header(&mut bytes, parts, five)?;
    push_part(&mut bytes, 8, five.names)?;
    push_part(&mut bytes, 8, five.units)?;
    push_part(&mut bytes, 8, five.files)?;
    push_part(&mut bytes, 8, five.pcs)?;
    push_part(&mut bytes, 8, five.funcs)?;
    Ok(bytes)
}

#[tactic(auto, unfolding(crate::specs::Written::header_over, crate::specs::Written::longs))]
fn push_header(bytes: &mut Vec<u8>, parts: &TableParts, five: &Subtables<'_>) -> Result<(), Memory>
    requires { length five.now.names.now + length five.now.units.now + length five.now.files.now + length five.now.pcs.now + length five.now.funcs.now < 2 ^ 32 }
    ensures { OnOk result (bytes.new.items ≡ bytes.old.items ++ header_over parts.now (five_of five.now)) }
{
    push_u32(bytes, MAGIC)?;
    bytes.extend_from_slice(&[0, 0, parts.quantum, 8])?;
    push_u64(bytes, parts.funcs.as_slice().len() as u64)?;
    push_u64(bytes, parts.files.as_slice().len() as u64)?;
    push_u64(bytes, parts.text_start)?;
    push_places(bytes, five)?;
    Ok(())
}

// Where the tables begin.
#[tactic(auto, unfolding(crate::specs::Written::longs, byte_layout::specs::Joined::places))]
fn push_places(bytes: &mut Vec<u8>, five: &Subtables<'_>) -> Result<(), Memory>
    requires { length five.now.names.now + length five.now.units.now + length five.now.files.now + length five.now.pcs.now + length five.now.funcs.now < 2 ^ 32 }
    ensures { OnOk result (bytes.new.items ≡ bytes.old.items ++ longs (places 8 header_size (five_of five.now))) }
{
    let names = next_place(HEADER_SIZE as u64);
    let units = next_place(names + five.names.len() as u64);
    let files = next_place(units + five.units.len() as u64);
    let pcs = next_place(files + five.files.len() as u64);
    let funcs = next_place(pcs + five.pcs.len() as u64);
    push_u64(bytes, names)?;
    push_u64(bytes, units)?;
    push_u64(bytes, files)?;
    push_u64(bytes, pcs)?;
    push_u64(bytes, funcs)?;
    Ok(())
}

// The next multiple of 8.
#[tactic(auto, unfolding(byte_layout::specs::Joined::aligned))]
fn next_place(at: u64) -> u64
    requires { at < 2 ^ 34 }
    ensures place { result ≡ aligned 8 at }
    ensures near { result < at + 8 }
{
    at + (8 - at % 8) % 8
}

// The units' files, which are offsets of names, and the names of files.
#[derive(Drop)]
struct FileBytes {
    units: Vec<u8>,
    names: Vec<u8>,
}

#[tactic(auto, using(crate::proofs::FuncLemmas::no_files, crate::proofs::FuncLemmas::all_names, crate::proofs::FuncLemmas::all_units, crate::proofs::FuncLemmas::files_short))]
fn write_files(alloc: Global, files: &[Name]) -> Result<FileBytes, Memory>
    requires { length (texts files.now) < 2 ^ 32 }
    ensures units { IfOk result (λ written. written.units.items ≡ words (starts 0 files.now)) }
    ensures names { IfOk result (λ written. written.names.items ≡ texts files.now) }
{
    let mut written = FileBytes {
        units: Vec::new(alloc),
        names: Vec::new(alloc),
    };
    for file in files {
        push_u32(&mut written.units, written.names.len() as u32)?;
        push_text(&mut written.names, file.as_slice())?;
    }
    Ok(written)
}

#[tactic(auto, unfolding(crate::specs::Written::text_bytes))]
pub fn push_text(bytes: &mut Vec<u8>, text: &[u8]) -> Result<(), Memory>
    ensures { OnOk result (bytes.new.items ≡ bytes.old.items ++ text_bytes text.now) }
{
    bytes.extend_from_slice(text)?;
    bytes.push(0)?;
    Ok(())
}
