ghost use Rattle.std.specs.Prelude.{◌≡◌, ◌++◌, IfOk, OnOk};
ghost use Rattle.link_plan.specs.Addresses as spec;

use goasm_base::Memory;
use link_functions::{Part, UnitCode};
use link_names::Meaning;
use link_values::KeptValue;
use std::alloc::Global;

/// What the functions of a build are to its symbols, by units.
pub fn code_meanings<I>(alloc: Global, code: &[UnitCode<'_, I>]) -> Result<Vec<Meaning>, Memory>
    ensures { IfOk result (λ meanings. meanings.items ≡ spec.code_meanings code.now) }
{
    let mut meanings = Vec::new(alloc);
    for (number, unit) in code.iter().enumerate() {
        push_meanings(&mut meanings, number, unit.parts.as_slice())?;
    }
    Ok(meanings)
}

// Appends what functions of the unit of this number are.
fn push_meanings<I>(
    meanings: &mut Vec<Meaning>,
    unit: usize,
    parts: &[Part<'_, I>],
) -> Result<(), Memory>
    ensures { OnOk result (meanings.new.items ≡ meanings.old.items ++ spec.part_meanings unit parts.now) }
{
    for part in parts {
        meanings.push(Meaning::Function {
            unit,
            number: part.number,
        })?;
    }
    Ok(())
}

/// What data is to the symbols of its build, in its order.
pub fn value_meanings(alloc: Global, kept: &[KeptValue]) -> Result<Vec<Meaning>, Memory>
    ensures { IfOk result (λ meanings. meanings.items ≡ spec.value_meanings kept.now) }
{
    Ok(
        kept.iter()
            .map(|value| Meaning::Value {
                unit: value.unit,
                number: value.number,
            })
            .collect(alloc)?,
    )
}
