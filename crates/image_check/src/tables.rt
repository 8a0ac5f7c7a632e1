// What the tables of a function tell of its instructions.
ghost use Rattle.std.specs.Prelude.{◌≡◌, ◌<◌, ◌↔◌, ℕ, List, pos, map, All, None, IfOk, IfSome, IsTrue};
ghost use Rattle.pcvalue.specs.Cover.{Ascends};
ghost use Rattle.pclntab.specs.Func.{DepthsOver};
ghost use Rattle.pclntab.specs.Places.{func_count};
ghost use Rattle.image_check.specs.Tables.{AreNatural, AreTold, HasFiles, HasLines, IsFile};

use goasm_base::Memory;
use pclntab::{Func, Table};
use std::alloc::Global;

/// The depths of stretches of a function, one behind the other from its entry on, each up to its end in bytes from there. `None`
/// exactly where its tables don't cover these with depths and lines that aren't negative, and with files that have names. `Memory`
/// comes only for want of memory.
pub(crate) fn told_depths(
    alloc: Global,
    table: &Table,
    index: u32,
    ends: &[u32],
) -> Result<Option<Vec<u32>>, Memory>
    requires inside { index < func_count table.now }
    requires rising { Ascends 0 ends.now }
    ensures some { IfOk result (λ found. IfSome found (λ depths. AreTold table.now index ends.now depths.items)) }
    ensures none { IfOk result (λ found. found ≡ None → (depths : List ℕ) → ¬ AreTold table.now index ends.now depths) }
{
    let func = table.at(index);
    let Some(depths) = natural_depths(alloc, &func, ends)? else {
        return Ok(None);
    };
    if !has_lines(alloc, &func, ends)? {
        return Ok(None);
    }
    if !has_files(alloc, table, index, ends)? {
        return Ok(None);
    }
    Ok(Some(depths))
}

// The depths of stretches, where its table covers these and none is negative.
fn natural_depths(alloc: Global, func: &Func, ends: &[u32]) -> Result<Option<Vec<u32>>, Memory>
    requires { Ascends 0 ends.now }
    ensures some { IfOk result (λ found. IfSome found (λ depths. DepthsOver func.now.bytes func.now.index ends.now (map pos depths.items))) }
    ensures none { IfOk result (λ found. found ≡ None → (depths : List ℕ)
        → ¬ DepthsOver func.now.bytes func.now.index ends.now (map pos depths)) }
{
    match func.depths_over(alloc, ends)? {
        Some(values) => naturals(alloc, &values),
        None => Ok(None),
    }
}

// The same numbers. `None` exactly where one is negative.
fn naturals(alloc: Global, numbers: &[i32]) -> Result<Option<Vec<u32>>, Memory>
    ensures some { IfOk result (λ found. IfSome found (λ same. numbers.now ≡ map pos same.items)) }
    ensures none { IfOk result (λ found. found ≡ None → ¬ AreNatural numbers.now) }
{
    let mut same = Vec::with_capacity(alloc, numbers.len())?;
    for number in numbers {
        if *number < 0 {
            return Ok(None);
        }
        same.push(*number as u32)?;
    }
    Ok(Some(same))
}

// Whether the line table covers the stretches, with lines that aren't negative.
fn has_lines(alloc: Global, func: &Func, ends: &[u32]) -> Result<bool, Memory>
    requires { Ascends 0 ends.now }
    ensures { IfOk result (λ has. IsTrue has ↔ HasLines func.now.bytes func.now.index ends.now) }
{
    match func.lines_over(alloc, ends)? {
        Some(lines) => Ok(are_natural(&lines)),
        None => Ok(false),
    }
}

// Whether no number is negative.
fn are_natural(numbers: &[i32]) -> bool
    ensures { IsTrue result ↔ AreNatural numbers.now }
{
    for number in numbers {
        if *number < 0 {
            return false;
        }
    }
    true
}

// Whether the file table covers the stretches, with numbers that stand for files.
fn has_files(alloc: Global, table: &Table, index: u32, ends: &[u32]) -> Result<bool, Memory>
    requires inside { index < func_count table.now }
    requires rising { Ascends 0 ends.now }
    ensures { IfOk result (λ has. IsTrue has ↔ HasFiles table.now index ends.now) }
{
    match table.at(index).files_over(alloc, ends)? {
        Some(files) => Ok(are_files(table, index, &files)),
        None => Ok(false),
    }
}

// Whether each number stands for a file of the function.
fn are_files(table: &Table, index: u32, numbers: &[i32]) -> bool
    requires { index < func_count table.now }
    ensures { IsTrue result ↔ All (IsFile table.now index) numbers.now }
{
    for number in numbers {
        if !table.has_file(index, *number) {
            return false;
        }
    }
    true
}
