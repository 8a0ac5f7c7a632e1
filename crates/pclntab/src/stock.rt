ghost use Rattle.std.specs.Prelude.{◌≡◌, ◌^◌, ◌<◌, [], ◌∷◌, ◌++◌, length, false, IfOk, OnOk};
ghost use Rattle.pcvalue.specs.Writing.{AreRuns, table_bytes};
ghost use Rattle.pclntab.specs.Written.{kept, offset_of, stored, has_table};
ghost use Rattle.pclntab.specs.Stock.{IsStock, tables_in};

use goasm_base::Memory;
use indexmap::IndexMap;
use pcvalue::{Run, encode};
use std::alloc::Global;

/// The pc-value tables that were written, equal ones once, behind one zero byte.
#[derive(Drop)]
pub struct Stock {
    pub bytes: Vec<u8>,
    // The offset of each table.
    offsets: IndexMap<Vec<u8>, u32>,
}

pub fn empty_stock(alloc: Global) -> Result<Stock, Memory>
    ensures stock { IfOk result (λ stock. IsStock stock) }
    ensures empty { IfOk result (λ stock. tables_in stock ≡ []) }
{
    Ok(Stock {
        bytes: Vec::from_slice(alloc, &[0])?,
        offsets: IndexMap::new(alloc),
    })
}

/// The offset of the table of these runs, which is written unless an equal one was.
pub fn store(alloc: Global, stock: &mut Stock, runs: &[Run], quantum: u8) -> Result<u32, Memory>
    requires runs { AreRuns quantum runs.now }
    requires stock { IsStock stock.old }
    requires short { length (stored (kept (tables_in stock.old) (table_bytes quantum runs.now))) < 2 ^ 32 }
    ensures stock { OnOk result (IsStock stock.new) }
    ensures kept { OnOk result (tables_in stock.new ≡ kept (tables_in stock.old) (table_bytes quantum runs.now)) }
    ensures offset { IfOk result (λ offset. offset ≡ offset_of (tables_in stock.new) (table_bytes quantum runs.now)) }
{
    let table = encode(alloc, runs, quantum)?;
    match stock.offsets.get(table.as_slice()) {
        Some(offset) => Ok(*offset),
        None => {
            let offset = add(alloc, stock, table.as_slice())?;
            Ok(offset)
        }
    }
}

// Writes a table that isn't there.
fn add(alloc: Global, stock: &mut Stock, table: &[u8]) -> Result<u32, Memory>
    requires stock { IsStock stock.old }
    requires absent { has_table (tables_in stock.old) table.now ≡ false }
    requires short { length (stored (tables_in stock.old)) < 2 ^ 32 }
    ensures stock { OnOk result (IsStock stock.new) }
    ensures kept { OnOk result (tables_in stock.new ≡ tables_in stock.old ++ table.now ∷ []) }
    ensures offset { IfOk result (λ offset. offset ≡ length (stored (tables_in stock.old))) }
{
    let offset = stock.bytes.len() as u32;
    let key = Vec::from_slice(alloc, table)?;
    stock.bytes.extend_from_slice(table)?;
    stock.offsets.insert(key, offset)?;
    Ok(offset)
}
