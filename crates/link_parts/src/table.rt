ghost use Rattle.std.specs.Prelude.{◌≡◌, ◌+◌, ◌*◌, ◌<◌, ◌≤◌, ◌^◌, All, length, map, min, sum, sum_by, IfOk, IfNone, IfSome};
ghost use Rattle.link_tables.specs.Stretches.{IsQuantum};
ghost use Rattle.link_tables.specs.Table.{AreReady, EntriesAscend, IsLinked, parts_of};
ghost use Rattle.pclntab.specs.Written.{run_count, written};
ghost use Rattle.link_parts.specs.Fitted.{IsTableOf};

use crate::length::MOST_BYTES;
use goasm_base::{Bytes, Memory, Name};
use link_tables::{FuncLines, linked_are_told, table_parts};
use pclntab::{FuncPart, TableParts, write, written_lengths};
use std::alloc::Global;

// No table has so many bytes.
const MOST: u64 = 0x1_0000_0000;

/// The function table that is told these lines of functions.
///
/// `None` comes exactly where it would have more than 2^26 bytes, and `Memory` only for want of memory.
pub fn table_of<I>(
    alloc: Global,
    files: &[Name],
    lines: &[FuncLines<'_, I>],
    quantum: u8,
    text_len: u32,
) -> Result<Option<Bytes>, Memory>
    requires quantum { IsQuantum quantum }
    requires files { length files.now < 2 ^ 32 }
    requires linked { All (IsLinked quantum (length files.now)) lines.now }
    requires order { EntriesAscend lines.now }
    requires few { length lines.now ≤ 65536 }
    requires short { sum (map (λ func. func.length) lines.now) ≤ 2 ^ 24 }
    ensures table { IfOk result (λ found. IfSome found (IsTableOf (parts_of files.now quantum text_len lines.now))) }
    ensures small { IfOk result (λ found. IfSome found (λ table. length table ≤ 2 ^ 26)) }
    ensures none { IfOk result (λ found. IfNone found (2 ^ 26 < length (written (parts_of files.now quantum text_len lines.now)))) }
{
    linked_are_told::<I>();
    let parts = table_parts(alloc, lines, files, quantum, text_len)?;
    write_short(alloc, &parts)
}

// The table of these parts, where it has at most 2^26 bytes. Where its names alone have more, it isn't written.
fn write_short(alloc: Global, parts: &TableParts) -> Result<Option<Bytes>, Memory>
    requires ready { AreReady parts.now }
    requires few { length parts.now.funcs ≤ 65536 }
    requires runs { sum_by run_count parts.now.funcs ≤ 3 * 2 ^ 24 }
    ensures table { IfOk result (λ found. IfSome found (IsTableOf parts.now)) }
    ensures small { IfOk result (λ found. IfSome found (λ table. length table ≤ 2 ^ 26)) }
    ensures none { IfOk result (λ found. IfNone found (2 ^ 26 < length (written parts.now))) }
{
    written_lengths();
    if names_size(parts) > MOST_BYTES {
        return Ok(None);
    }
    let table = write(alloc, parts)?;
    if table.as_slice().len() as u64 > MOST_BYTES {
        return Ok(None);
    }
    Ok(Some(table))
}

// How many bytes the names of functions and files take, each with a zero byte behind it. 2^32 stands for all lengths from there on.
fn names_size(parts: &TableParts) -> u64
    ensures { result ≡ min (sum_by (λ func. length func.name + 1) parts.now.funcs + sum_by (λ file. length file + 1) parts.now.files) (2 ^ 32) }
{
    let size = with_funcs(0, parts.funcs.as_slice());
    with_files(size, parts.files.as_slice())
}

fn with_name(size: u64, name: &Name) -> u64
    requires { size ≤ 2 ^ 32 }
    ensures { result ≡ min (size + (length name.now + 1)) (2 ^ 32) }
{
    (size + name.as_slice().len() as u64 + 1).min(MOST)
}

fn with_funcs(size: u64, funcs: &[FuncPart]) -> u64
    requires { size ≤ 2 ^ 32 }
    ensures { result ≡ min (size + sum_by (λ func. length func.name + 1) funcs.now) (2 ^ 32) }
{
    let mut total = size;
    for func in funcs {
        total = with_name(total, &func.name);
    }
    total
}

fn with_files(size: u64, files: &[Name]) -> u64
    requires { size ≤ 2 ^ 32 }
    ensures { result ≡ min (size + sum_by (λ file. length file + 1) files.now) (2 ^ 32) }
{
    let mut total = size;
    for file in files {
        total = with_name(total, file);
    }
    total
}
