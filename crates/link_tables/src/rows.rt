ghost use Rattle.std.specs.Prelude.{◌≡◌, ◌<◌, ◌^◌, drop, length, IfOk};
ghost use Rattle.link_tables.specs.Rows as spec;

use crate::func_lines::FuncLines;
use crate::row::Row;
use goasm_base::Memory;
use std::alloc::Global;

/// The lines of a function with their bytes.
#[tactic(auto, unfolding(crate::specs::Rows::rows_from), using(crate::proofs::RowLemmas::all_rows))]
pub fn rows_of<I>(alloc: Global, func: &FuncLines<'_, I>) -> Result<Vec<Row>, Memory>
    ensures { IfOk result (λ rows. rows.items ≡ spec.rows_of func.now) }
{
    let mut rows = Vec::new(alloc);
    for (index, line) in func.lines.iter().enumerate() {
        rows.push(Row {
            end: end_of(func.places, index, func.length),
            depth: line.depth,
            file: line.pos.file,
            line: line.pos.line,
        })?;
    }
    Ok(rows)
}

// Where a line ends: at the place of the next one, and the last with the function.
#[tactic(auto, using(crate::proofs::RowLemmas::end_inside, crate::proofs::RowLemmas::end_last))]
fn end_of(places: &[u32], index: usize, length: u32) -> u32
    requires { index < 2 ^ 63 }
    ensures { result ≡ spec.end_before (drop 1 (drop index places.now)) length }
{
    match places.get(index + 1) {
        Some(place) => *place,
        None => length,
    }
}
