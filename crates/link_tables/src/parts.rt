ghost use Rattle.std.specs.Prelude.{◌≡◌, ◌<◌, ◌^◌, All, length, map, IfOk, IfSome, OnOk};
ghost use Rattle.link_tables.specs.Stretches.{IsQuantum};
ghost use Rattle.link_tables.specs.Table as spec;
ghost use Rattle.link_tables.specs.Table.{IsLinked, EntriesAscend, AreReady, CanTell, part_of, parts_of};

use crate::files::Files;
use crate::func_lines::FuncLines;
use crate::numbering::number_all;
use crate::rows::rows_of;
use crate::stretches::{depth_runs, file_runs, line_runs};
use goasm_base::{List, Memory, Name};
use pclntab::{FuncPart, TableParts};
use std::alloc::Global;

// The address of an image's text.
const TEXT_START: u64 = 0x40_0000;

// A stack ends in the function (Go's `textflag.h`).
const TOPFRAME: u32 = 2048;

/// The parts of the function table of an image with these functions, which stand by their entries. Names of files stand in the
/// order of their first use, each once.
///
/// It needs the names of the build's files, which the lines' positions number, the quantum of the target and the length of the
/// text in bytes. It is refused for want of memory alone.
pub fn table_parts<I>(
    alloc: Global,
    funcs: &[FuncLines<'_, I>],
    files: &[Name],
    quantum: u8,
    text_len: u32,
) -> Result<TableParts, Memory>
    requires quantum { IsQuantum quantum }
    requires files { length files.now < 2 ^ 32 }
    requires funcs { All (IsLinked quantum (length files.now)) funcs.now }
    requires few { length (spec.files_of files.now funcs.now) < 2 ^ 31 }
    requires order { EntriesAscend funcs.now }
    ensures parts { IfOk result (λ parts. parts ≡ parts_of files.now quantum text_len funcs.now) }

    // `pclntab::write` takes them, if the table has fewer than 2^32 bytes.
    ensures ready { IfOk result (λ parts. AreReady parts) }
{
    let mut used = Files::new(alloc, files)?;
    number_all(&mut used, funcs)?;
    let names = used.names(alloc)?;
    let parts = func_parts(alloc, &mut used, funcs)?;
    Ok(TableParts {
        quantum,
        text_start: TEXT_START,
        text_len,
        files: names,
        funcs: List::new(parts),
    })
}

// The parts of the functions, whose files' names are used.
fn func_parts<I>(
    alloc: Global,
    files: &mut Files<'_>,
    funcs: &[FuncLines<'_, I>],
) -> Result<Vec<FuncPart>, Memory>
    requires { All (CanTell files.old.build files.old.used) funcs.now }
    ensures files { OnOk result (files.new ≡ files.old) }
    ensures parts { IfOk result (λ parts. parts.items ≡ map (part_of files.old.build files.old.used) funcs.now) }
{
    let mut parts = Vec::new(alloc);
    for func in funcs {
        let part = func_part(alloc, files, func)?;
        parts.push(part)?;
    }
    Ok(parts)
}

fn func_part<I>(
    alloc: Global,
    files: &mut Files<'_>,
    func: &FuncLines<'_, I>,
) -> Result<FuncPart, Memory>
    requires { CanTell files.old.build files.old.used func.now }
    ensures files { OnOk result (files.new ≡ files.old) }
    ensures part { IfOk result (λ part. part ≡ part_of files.old.build files.old.used func.now) }
{
    let rows = rows_of(alloc, func)?;
    let name = func.name.copy(alloc)?;
    let depth = depth_runs(alloc, rows.as_slice())?;
    let file = file_runs(alloc, files, rows.as_slice())?;
    let line = line_runs(alloc, rows.as_slice())?;
    Ok(FuncPart {
        name,
        entry: func.entry,
        args: args_field(func.args),
        flags: flags_field(func.flags),
        start_line: func.start_line as i32,
        depth: List::new(depth),
        file: List::new(file),
        line: List::new(line),
    })
}

// The size of arguments and results, or -2^31 where it isn't written.
fn args_field(args: Option<u32>) -> i32
    requires { IfSome args (λ size. size < 2 ^ 31) }
    ensures { result ≡ spec.args_field args }
{
    match args {
        Some(size) => size as i32,
        None => i32::MIN,
    }
}

// Written in assembly, and whether a stack ends in the function.
fn flags_field(flags: u32) -> u8
    ensures { result ≡ spec.flags_field flags }
{
    if flags & TOPFRAME == 0 { 4 } else { 5 }
}
