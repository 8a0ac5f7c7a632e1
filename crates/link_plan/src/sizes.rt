ghost use Rattle.std.specs.Prelude.{◌≡◌, ◌++◌, IfOk, OnOk};
ghost use Rattle.link_plan.specs.Sizes as spec;

use goasm_base::Memory;
use link_functions::{Part, UnitCode};
use std::alloc::Global;

/// The sizes of the functions of a build in bytes, by units.
pub fn code_sizes<I>(alloc: Global, code: &[UnitCode<'_, I>]) -> Result<Vec<u64>, Memory>
    ensures { IfOk result (λ sizes. sizes.items ≡ spec.code_sizes code.now) }
{
    let mut sizes = Vec::new(alloc);
    for unit in code {
        push_sizes(&mut sizes, unit.parts.as_slice())?;
    }
    Ok(sizes)
}

// Appends the sizes of functions.
fn push_sizes<I>(sizes: &mut Vec<u64>, parts: &[Part<'_, I>]) -> Result<(), Memory>
    ensures { OnOk result (sizes.new.items ≡ sizes.old.items ++ spec.part_sizes parts.now) }
{
    for part in parts {
        sizes.push(u64::from(part.laid.sizes.length))?;
    }
    Ok(())
}
