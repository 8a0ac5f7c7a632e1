ghost use Rattle.std.specs.Prelude.{◌≡◌, ◌++◌, map, IfOk, OnOk};
ghost use Rattle.link_build.specs.Functions as spec;

use asm_parse::Unit;
use goasm_base::Memory;
use link_functions::{Part, UnitCode};
use std::alloc::Global;

/// A function that an image has.
#[derive(Clone, Copy)]
pub struct Func<'f, 'a, I> {
    /// The number of its unit.
    pub number: usize,
    pub unit: &'a Unit,
    pub part: &'f Part<'a, I>,
}

/// The functions of a build that count, in the order in which they stand in its image: by units.
///
/// `Memory` comes only for want of memory.
pub fn functions_of<'f, 'a, I>(
    alloc: Global,
    code: &'f [UnitCode<'a, I>],
) -> Result<Vec<Func<'f, 'a, I>>, Memory>
    ensures { IfOk result (λ funcs. map spec.seen funcs.items ≡ spec.functions_in code.now) }
{
    let mut funcs = Vec::new(alloc);
    for (number, unit) in code.iter().enumerate() {
        push_functions(&mut funcs, number, unit)?;
    }
    Ok(funcs)
}

// Appends the functions of the unit of this number.
fn push_functions<'f, 'a, I>(
    funcs: &mut Vec<Func<'f, 'a, I>>,
    number: usize,
    code: &'f UnitCode<'a, I>,
) -> Result<(), Memory>
    ensures { OnOk result (map spec.seen funcs.new.items ≡ map spec.seen funcs.old.items ++ spec.functions_of number code.now) }
{
    for part in code.parts.as_slice() {
        funcs.push(Func {
            number,
            unit: code.unit,
            part,
        })?;
    }
    Ok(())
}
