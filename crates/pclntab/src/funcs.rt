ghost use Rattle.std.specs.Prelude.{◌≡◌, ℕ, ◌^◌, ◌<◌, ◌≤◌, ◌+◌, ◌*◌, [], ◌∷◌, ◌++◌, length, All, IfOk, OnOk};
ghost use Rattle.std.specs.Int.{w32, cast_unsigned};
ghost use Rattle.pclntab.specs.Written as spec;
ghost use Rattle.pclntab.specs.Written.{text_bytes, texts, words, tables_of, all_kept, kept_of, stored, offset_of, fields, record_bytes, first_record, names_of};
ghost use Rattle.pcvalue.specs.Writing.{table_bytes};
ghost use Rattle.pclntab.specs.Stock.{IsStock, tables_in};
ghost use Rattle.pclntab.specs.Writing.{FitWords, HasRuns};

use crate::parts::{FuncPart, TableParts};
use crate::stock::{Stock, empty_stock, store};
use crate::writing::push_text;
use byte_layout::{push_u32, push_words};
use goasm_base::Memory;
use std::alloc::Global;

/// The size of a record.
const RECORD_SIZE: u32 = 44;

/// What stands in the tables of functions, names and pc-value tables.
#[derive(Drop)]
pub struct FuncBytes {
    pub names: Vec<u8>,
    pub stock: Stock,
    pub pairs: Vec<u8>,
    pub records: Vec<u8>,
}

/// Writes the functions.
pub fn write_funcs(alloc: Global, parts: &TableParts) -> Result<FuncBytes, Memory>
    requires fit { FitWords parts.now }
    requires runs { All (HasRuns parts.now.quantum) parts.now.funcs }
    ensures names { IfOk result (λ out. out.names.items ≡ texts (names_of parts.now.funcs)) }
    ensures pcs { IfOk result (λ out. out.stock.bytes.items ≡ stored (kept_of parts.now)) }
    ensures pairs { IfOk result (λ out. out.pairs.items ≡ words (spec.pairs (first_record parts.now) parts.now.funcs)) }
    ensures records { IfOk result (λ out. out.records.items ≡ spec.records parts.now) }
{
    let funcs = parts.funcs.as_slice();
    let mut out = FuncBytes {
        names: Vec::new(alloc),
        stock: empty_stock(alloc)?,
        pairs: Vec::new(alloc),
        records: Vec::new(alloc),
    };
    let mut place = 8 * funcs.len() as u32 + 4;
    for func in funcs {
        push_func(alloc, &mut out, parts.quantum, place, func)?;
        place += RECORD_SIZE;
    }
    Ok(out)
}

// Writes one more function, whose record has this place.
#[tactic(auto, unfolding(crate::specs::Written::words, crate::specs::Written::record_bytes))]
fn push_func(
    alloc: Global,
    out: &mut FuncBytes,
    quantum: u8,
    place: u32,
    func: &FuncPart,
) -> Result<(), Memory>
    requires runs { HasRuns quantum func.now }
    requires stock { IsStock out.old.stock }
    requires names { length out.old.names.items < 2 ^ 32 }
    requires pcs { length (stored (all_kept (tables_in out.old.stock) (tables_of quantum func.now))) < 2 ^ 32 }
    ensures stock { OnOk result (IsStock out.new.stock) }
    ensures tables { OnOk result (tables_in out.new.stock ≡ all_kept (tables_in out.old.stock) (tables_of quantum func.now)) }
    ensures names { OnOk result (out.new.names.items ≡ out.old.names.items ++ text_bytes func.now.name) }
    ensures pairs { OnOk result (out.new.pairs.items ≡ out.old.pairs.items ++ words (func.now.entry ∷ place ∷ [])) }
    ensures records { OnOk result (out.new.records.items ≡ out.old.records.items
        ++ record_bytes quantum (tables_in out.new.stock) (record { name = length out.old.names.items; func = func.now })) }
{
    let name = out.names.len() as u32;
    push_text(&mut out.names, func.name.as_slice())?;
    push_words(&mut out.pairs, &[func.entry, place])?;
    let offsets = store_tables(alloc, &mut out.stock, quantum, func)?;
    push_record(&mut out.records, func, name, &offsets)
}

// The offsets of a function's tables.
#[derive(Clone, Copy)]
struct Offsets {
    depth: u32,
    file: u32,
    line: u32,
}

#[tactic(auto, unfolding(crate::specs::Written::all_kept))]
fn store_tables(
    alloc: Global,
    stock: &mut Stock,
    quantum: u8,
    func: &FuncPart,
) -> Result<Offsets, Memory>
    requires runs { HasRuns quantum func.now }
    requires stock { IsStock stock.old }
    requires pcs { length (stored (all_kept (tables_in stock.old) (tables_of quantum func.now))) < 2 ^ 32 }
    ensures stock { OnOk result (IsStock stock.new) }
    ensures tables { OnOk result (tables_in stock.new ≡ all_kept (tables_in stock.old) (tables_of quantum func.now)) }
    ensures depth { IfOk result (λ offsets. offsets.depth ≡ offset_of (tables_in stock.new) (table_bytes quantum func.now.depth)) }
    ensures file { IfOk result (λ offsets. offsets.file ≡ offset_of (tables_in stock.new) (table_bytes quantum func.now.file)) }
    ensures line { IfOk result (λ offsets. offsets.line ≡ offset_of (tables_in stock.new) (table_bytes quantum func.now.line)) }
{
    let depth = store(alloc, stock, func.depth.as_slice(), quantum)?;
    let file = store(alloc, stock, func.file.as_slice(), quantum)?;
    let line = store(alloc, stock, func.line.as_slice(), quantum)?;
    Ok(Offsets { depth, file, line })
}

// Writes a record, whose name has this offset. Its fields stand in the order of Go's `_func`.
#[tactic(auto, unfolding(crate::specs::Written::words))]
fn push_record(
    bytes: &mut Vec<u8>,
    func: &FuncPart,
    name: u32,
    offsets: &Offsets,
) -> Result<(), Memory>
    ensures { OnOk result (bytes.new.items ≡ bytes.old.items
        ++ (words (func.now.entry ∷ name ∷ cast_unsigned w32 func.now.args ∷ 0 ∷ offsets.now.depth ∷ offsets.now.file ∷ offsets.now.line ∷ 0 ∷ 0 ∷ cast_unsigned w32 func.now.start_line ∷ [])
        ++ 0 ∷ func.now.flags ∷ 0 ∷ 0 ∷ [])) }
{
    push_words(
        bytes,
        &[
            func.entry,
            name,
            func.args.cast_unsigned(),
            0,
            offsets.depth,
            offsets.file,
            offsets.line,
            0,
            0,
            func.start_line.cast_unsigned(),
        ],
    )?;
    bytes.extend_from_slice(&[0, func.flags, 0, 0])?;
    Ok(())
}
