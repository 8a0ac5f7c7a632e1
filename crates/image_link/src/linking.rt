ghost use Rattle.std.specs.Prelude.{◌≡◌, ◌≢◌, map, Err, IfOk};
ghost use Rattle.link_build.specs.Functions.{functions_in, seen};
ghost use Rattle.link_build.specs.Resolved.{IsValidBuild};
ghost use Rattle.link_build.specs.declared.link_no.LinkNo.{LinkNo};
ghost use Rattle.link_build.specs.declared.link_no.LinkNo.TheVariants as numbers;
ghost use Rattle.unit_listing.specs.Kit.{kit_of};
ghost use Rattle.image_link.specs.Linked.{IsFit, IsLinked};
ghost use Rattle.image_link.specs.Refusals.{IsFirstRefusal};

use crate::standing::{judge, stand};
use crate::writing::write_image;
use asm_target::Target;
use goasm_base::Bytes;
use link_build::{Build, Func, LinkNo, functions_of, resolve};
use link_functions::UnitCode;
use link_names::Names;
use link_parts::{Fitted, fit};
use std::alloc::Global;

/// Links an image from a build: an ELF64 file with its functions at 0x400000, their table, its data and its symbols.
///
/// Of several things that are wrong the first is told: `N1`, a symbol is defined twice; `N6`, a `DATA` has no room; `Rewrite` and `Size`,
/// by function, one has no instructions or its branches don't reach; `N2`, something is referred to that stands for nothing, or the
/// entry for no function; `N5`, a limit is passed; `N3`, an instruction can't hold an address; `N7`, one goes to an address outside the
/// text that no outside name has; `Flow`, by function, one breaks a rule of its depth table. `Memory` comes only for want of memory.
pub fn link<T: Target>(alloc: Global, build: &Build) -> Result<Bytes, LinkNo>
    requires valid { IsValidBuild build.now }
    ensures linked { let kit = kit_of T.instructions T.fits T.MACHINE T.QUANTUM T.SHAPE T.selection T.aiming T.entry T.check T.begins in
        IfOk result (IsLinked kit build.now T.GROWTH) }
    ensures refused { let kit = kit_of T.instructions T.fits T.MACHINE T.QUANTUM T.SHAPE T.selection T.aiming T.entry T.check T.begins in
        (no : LinkNo) → result ≡ Err no → no ≢ numbers.Memory → IsFirstRefusal kit build.now no }
{
    let resolved = resolve::<T>(alloc, build)?;
    let names = &resolved.names;
    let code = resolved.code.as_slice();
    let funcs = functions_of(alloc, code)?;
    let funcs = funcs.as_slice();
    let Some(fitted) = fit::<T>(alloc, build, names, code, funcs)? else {
        return Err(LinkNo::N5);
    };
    let image = link_fitted::<T>(alloc, build, names, code, funcs, fitted)?;
    Ok(image)
}

// The same, where it's known what the image has beside its code and the bytes of its data.
fn link_fitted<T: Target>(
    alloc: Global,
    build: &Build,
    names: &Names<'_>,
    code: &[UnitCode<'_, T::Instr>],
    funcs: &[Func<'_, '_, T::Instr>],
    fitted: Fitted,
) -> Result<Bytes, LinkNo>
    requires valid { IsValidBuild build.now }
    requires fit { let kit = kit_of T.instructions T.fits T.MACHINE T.QUANTUM T.SHAPE T.selection T.aiming T.entry T.check T.begins in
        IsFit kit build.now names.now code.now fitted }
    requires functions { map seen funcs.now ≡ functions_in code.now }
    ensures linked { let kit = kit_of T.instructions T.fits T.MACHINE T.QUANTUM T.SHAPE T.selection T.aiming T.entry T.check T.begins in
        IfOk result (IsLinked kit build.now T.GROWTH) }
    ensures refused { let kit = kit_of T.instructions T.fits T.MACHINE T.QUANTUM T.SHAPE T.selection T.aiming T.entry T.check T.begins in
        (no : LinkNo) → result ≡ Err no → no ≢ numbers.Memory → IsFirstRefusal kit build.now no }
{
    let standing = stand::<T>(alloc, build, names, code, funcs, &fitted)?;
    judge::<T>(alloc, funcs, &standing)?;
    let image = write_image::<T>(alloc, build, names, code, funcs, standing, fitted)?;
    Ok(image)
}
