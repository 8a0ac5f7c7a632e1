ghost use Rattle.std.specs.Prelude.{◌≡◌, ◌≢◌, Err, IfOk};
ghost use Rattle.unit_listing.specs.Kit.{kit_of};
ghost use Rattle.link_build.specs.Refusals.{IsUnresolved};
ghost use Rattle.link_build.specs.Resolved as spec;
ghost use Rattle.link_build.specs.declared.link_no.LinkNo.{LinkNo};
ghost use Rattle.link_build.specs.declared.link_no.LinkNo.TheVariants as numbers;

use crate::build::Build;
use crate::link_no::LinkNo;
use asm_target::Target;
use link_functions::{UnitCode, judge_references, lay_all};
use link_names::{Names, judge_data, judge_entry};
use std::alloc::Global;

/// A build in which each symbol that is referred to stands for something.
#[derive(Drop)]
pub struct Resolved<'a, I> {
    /// What its symbols stand for.
    pub names: Names<'a>,
    /// Its units, each with its functions that count and their instructions.
    pub code: Vec<UnitCode<'a, I>>,
}

/// What the symbols of a build stand for, and the instructions of its functions that count.
///
/// `N1` comes where a symbol is defined twice, then `N6` where a `DATA` has no room, then the first function that has no instructions
/// or whose branches don't reach, then `N2` where something is referred to that stands for nothing, or where the entry stands for no
/// function. `Memory` comes only for want of memory.
pub fn resolve<'a, T: Target>(
    alloc: Global,
    build: &'a Build,
) -> Result<Resolved<'a, T::Instr>, LinkNo>
    requires valid { spec.IsValidBuild build.now }
    ensures resolved { let kit = kit_of T.instructions T.fits T.MACHINE T.QUANTUM T.SHAPE T.selection T.aiming T.entry T.check T.begins in
        IfOk result (λ resolved. spec.IsResolved kit build.now resolved.names resolved.code.items) }
    ensures refused { let kit = kit_of T.instructions T.fits T.MACHINE T.QUANTUM T.SHAPE T.selection T.aiming T.entry T.check T.begins in
        (no : LinkNo) → result ≡ Err no → no ≢ numbers.Memory → IsUnresolved kit build.now no }
{
    let units = build.units.as_slice();
    let names = Names::new(alloc, units, build.outside.as_slice())?;
    judge_data(alloc, units, &names)?;
    let code = lay_all::<T>(alloc, units, &names)?;
    judge_references(alloc, &names, code.as_slice())?;
    judge_entry(alloc, &names, &build.entry)?;
    Ok(Resolved { names, code })
}
