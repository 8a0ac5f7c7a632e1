ghost use Rattle.std.specs.Prelude.{◌≡◌, true, List, ℤ, Some, IfOk, IfSome};
ghost use Rattle.std.specs.Option.{option_map};
ghost use Rattle.pcvalue.specs.Runs.{start};
ghost use Rattle.pcvalue.specs.Steps.{point_of, reading_of};
ghost use Rattle.pcvalue.specs.Cover.{Ascends, TellsOver};
ghost use Rattle.pcvalue.specs.Spread as spec;

use crate::least::is_least;
use crate::run::Run;
use crate::step::{Cursor, Step, next_run};
use goasm_base::{Memory, behind_or_empty};
use std::alloc::Global;

/// The values that the pc-value table at an offset gives to stretches of code, one behind the other from place 0 on, each
/// up to its end in bytes.
///
/// `None` exactly where no table is meant there, or it isn't in its least form, ends before or behind the last stretch, or
/// changes within one. It goes over the table and the ends once.
#[tactic(auto, using(crate::proofs::CoverLemmas::told, crate::proofs::CoverLemmas::tells))]
pub fn values_over(
    alloc: Global,
    table: &[u8],
    offset: u32,
    quantum: u8,
    ends: &[u32],
) -> Result<Option<Vec<i32>>, Memory>
    requires rising { Ascends 0 ends.now }
    ensures values { IfOk result (λ found. IfSome found (λ values. TellsOver table.now offset quantum ends.now values.items)) }
    ensures only { (values : List ℤ) → TellsOver table.now offset quantum ends.now values
        → IfOk result (λ found. option_map (λ v. v.items) found ≡ Some values) }
{
    if offset == 0 {
        return Ok(None);
    }
    values_from(
        alloc,
        behind_or_empty(table, offset as usize),
        quantum,
        ends,
    )
}

#[tactic(auto, unfolding(crate::specs::Spread::spread))]
fn values_from(
    alloc: Global,
    bytes: &[u8],
    quantum: u8,
    ends: &[u32],
) -> Result<Option<Vec<i32>>, Memory>
    ensures { IfOk result (λ found. option_map (λ v. v.items) found
        ≡ spec.spread quantum (spec.least_run quantum true (start bytes.now)) ends.now) }
{
    let mut values = Vec::with_capacity(alloc, ends.len())?;
    let before = Cursor {
        run: Run { end: 0, value: -1 },
        rest: bytes,
    };
    let mut step = least_run(quantum, true, &before);
    for end in ends {
        let Step::Another(cursor) = step else {
            return Ok(None);
        };
        values.push(cursor.run.value)?;
        step = behind_stretch(quantum, &cursor, *end);
    }
    match step {
        Step::Finished => Ok(Some(values)),
        _ => Ok(None),
    }
}

// What holds behind a stretch that the run of the cursor has up to its end.
#[tactic(auto, unfolding(crate::specs::Spread::behind_stretch))]
fn behind_stretch<'a>(quantum: u8, cursor: &Cursor<'a>, end: u32) -> Step<'a>
    ensures { reading_of result ≡ spec.behind_stretch quantum (point_of cursor.now) end }
{
    if end < cursor.run.end {
        Step::Another(*cursor)
    } else if end == cursor.run.end {
        least_run(quantum, false, cursor)
    } else {
        Step::Fault
    }
}

// What stands at a cursor; anything but the least form is a fault.
#[tactic(auto, unfolding(crate::specs::Spread::least_run))]
fn least_run<'a>(quantum: u8, first: bool, cursor: &Cursor<'a>) -> Step<'a>
    ensures { reading_of result ≡ spec.least_run quantum first (point_of cursor.now) }
{
    if is_least(quantum, first, cursor.rest) {
        next_run(quantum, first, cursor)
    } else {
        Step::Fault
    }
}
