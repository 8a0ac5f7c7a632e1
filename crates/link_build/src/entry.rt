ghost use Rattle.std.specs.Prelude.{◌≡◌, ◌<◌, List, length, map};
ghost use Rattle.unit_listing.specs.Kit.{kit_of};
ghost use Rattle.link_functions.specs.Kept.{is_function_at};
ghost use Rattle.link_functions.specs.declared.code.UnitCode.{UnitCode};
ghost use Rattle.link_build.specs.declared.build.Build.{Build};
ghost use Rattle.link_build.specs.Functions.{IsEntryAt, functions_in, seen};
ghost use Rattle.link_build.specs.Resolved.{IsResolved, IsValidBuild};

use crate::func::Func;
use asm_target::Target;
use goasm_base::Name;
use link_names::{Meaning, Names};

/// The number of the function for which the entry of a build stands, among those that its image has.
pub fn find_entry<T: Target>(
    names: &Names<'_>,
    entry: &Name,
    funcs: &[Func<'_, '_, T::Instr>],
) -> usize
    requires resolved { let kit = kit_of T.instructions T.fits T.MACHINE T.QUANTUM T.SHAPE T.selection T.aiming T.entry T.check T.begins in
        (build : Build) × (code : List (UnitCode T.Instr)) × IsValidBuild build × IsResolved kit build names.now code
        × (build.entry ≡ entry.now) × (map seen funcs.now ≡ functions_in code) }
    ensures within { result < length funcs.now }
    ensures entry { IsEntryAt names.now entry.now (map seen funcs.now) result }
{
    let meaning = names.global(entry.as_slice());
    for (number, func) in funcs.iter().enumerate() {
        if is_func(meaning, func) {
            return number;
        }
    }
    0
}

// Whether it's this function.
fn is_func<I>(meaning: Option<Meaning>, func: &Func<'_, '_, I>) -> bool
    ensures { result ≡ is_function_at func.now.number func.now.part.now.number meaning }
{
    match meaning {
        Some(Meaning::Function { unit, number }) => {
            unit == func.number && number == func.part.number
        }
        _ => false,
    }
}
