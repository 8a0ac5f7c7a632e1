ghost use Rattle.std.specs.Prelude.{◌≡◌, ◌<◌, ◌^◌, ℕ, List, All, length, map, IfOk};
ghost use Rattle.unit_listing.specs.Kit.{kit_of};
ghost use Rattle.link_build.specs.declared.build.Build.{Build};
ghost use Rattle.link_build.specs.Functions.{IsSound, seen};
ghost use Rattle.link_lines.specs.Told as spec;

use asm_target::Target;
use goasm_base::Memory;
use link_build::Func;
use link_tables::FuncLines;
use std::alloc::Global;

/// What a function table is told of a build's functions, in their order. Each begins at the entry of its number, in bytes from the
/// first of the text.
///
/// `Memory` comes only for want of memory.
pub fn all_lines<'f, 'a, T: Target>(
    alloc: Global,
    funcs: &[Func<'f, 'a, T::Instr>],
    entries: &[u64],
) -> Result<Vec<FuncLines<'f, T::Instr>>, Memory>
    requires sound { let kit = kit_of T.instructions T.fits T.MACHINE T.QUANTUM T.SHAPE T.selection T.aiming T.entry T.check T.begins in
        (build : Build) × All (IsSound kit build) (map seen funcs.now) }
    requires as_many { length entries.now ≡ length funcs.now }
    requires small { All (λ entry. entry < 2 ^ 32) entries.now }
    ensures told { IfOk result (λ all. spec.AreToldBy (map seen funcs.now) entries.now all.items) }
    ensures entries { IfOk result (λ all. map (λ lines. lines.entry) all.items ≡ entries.now) }
{
    let mut all = Vec::new(alloc);
    for number in 0..funcs.len() {
        all.push(lines_of(&funcs[number], entries[number]))?;
    }
    Ok(all)
}

// What it's told of the function that begins at this entry.
fn lines_of<'f, 'a, I>(func: &Func<'f, 'a, I>, entry: u64) -> FuncLines<'f, I>
    requires symbol { let func = seen func.now in func.part.function.now.sym < length func.unit.symbols }
    requires small { entry < 2 ^ 32 }
    ensures { spec.IsToldBy (seen func.now) entry result }
{
    let function = func.part.function;
    let laid = &func.part.laid;
    FuncLines {
        name: &func.unit.symbols.as_slice()[function.sym as usize].name,
        entry: entry as u32,
        args: function.args,
        flags: function.flags,
        start_line: function.pos.line,
        lines: laid.body.code.as_slice(),
        places: laid.sizes.places.as_slice(),
        length: laid.sizes.length,
    }
}
